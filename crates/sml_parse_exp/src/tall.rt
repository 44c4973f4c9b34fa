ghost use Rattle.std.specs.Prelude.{◌≡◌, max};
ghost use Rattle.sml_grammar_exp.specs.Exps as grammar;
ghost use Rattle.sml_parse_exp.specs.Trees as trees;

/// How far to the right a phrase reaches: `raise`, `if`, `while`, `case`, `fn` and matches reach as far as they can, and a bar
/// belongs to the nearest match.
#[derive(Clone, Copy)]
pub enum Reach {
    Near,
    Far,
    Match,
}

/// How a phrase ends: whether in a type, and how far it reaches.
#[derive(Clone, Copy)]
pub struct Ends {
    pub typed: bool,
    pub reach: Reach,
}

/// A tree, how its phrase ends, and its height.
#[derive(Drop)]
pub struct Tall<T> {
    pub tree: T,
    pub ends: Ends,
    pub height: u32,
}

/// The end of a phrase that ends as this one, and reaches as far as it can.
pub fn farther(ends: Ends) -> Ends
    ensures { trees.ends_of result ≡ grammar.far_end (trees.ends_of ends) }
{
    let old = ends.reach;
    let reach = match old {
        Reach::Near => Reach::Far,
        Reach::Far => Reach::Far,
        Reach::Match => Reach::Match,
    };
    Ends {
        typed: ends.typed,
        reach,
    }
}

/// The end of a phrase that ends in a match.
pub fn in_match(ends: Ends) -> Ends
    ensures { trees.ends_of result ≡ grammar.match_ends (trees.ends_of ends) }
{
    Ends {
        typed: ends.typed,
        reach: Reach::Match,
    }
}

/// Whether something that is as tight may stand behind it.
pub fn is_near(ends: Ends) -> bool
    ensures { result ≡ grammar.near (trees.ends_of ends).reach }
{
    let reach = ends.reach;
    match reach {
        Reach::Near => true,
        Reach::Far => false,
        Reach::Match => false,
    }
}

/// Whether a bar behind it would be its own.
pub fn takes_bar(ends: Ends) -> bool
    ensures { result ≡ grammar.takes_bar (trees.ends_of ends).reach }
{
    let reach = ends.reach;
    match reach {
        Reach::Near => false,
        Reach::Far => false,
        Reach::Match => true,
    }
}

/// The greater height.
pub fn higher(left: u32, right: u32) -> u32
    ensures { result ≡ max left right }
{
    left.max(right)
}
