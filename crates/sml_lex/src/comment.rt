ghost use Rattle.std.specs.Prelude.{◌≡◌, ℕ, ◌+◌, ◌<◌, ◌≤◌, ◌^◌, IfSome, IfNone, length};
ghost use Rattle.sml_lex.specs.Comments.{CommentEnds};
ghost use Rattle.sml_lex.specs.Marks.{after, depth_after, is_end};
ghost use Rattle.sml_lex.specs.declared.comment.Before.TheVariants.{Other};

/// The byte before, as far as it may begin a mark.
#[derive(Clone, Copy, Debug)]
pub enum Before {
    Other,
    Paren,
    Star,
}

fn next(before: Before, byte: u8) -> Before
    ensures { result ≡ after before byte }
{
    match before {
        Before::Paren => {
            if byte == b'*' {
                Before::Other
            } else {
                next_alone(byte)
            }
        }
        Before::Star => {
            if byte == b')' {
                Before::Other
            } else {
                next_alone(byte)
            }
        }
        Before::Other => next_alone(byte),
    }
}

fn next_alone(byte: u8) -> Before
    ensures { result ≡ after Other byte }
{
    match byte {
        b'(' => Before::Paren,
        b'*' => Before::Star,
        _ => Before::Other,
    }
}

fn next_depth(before: Before, byte: u8, depth: usize) -> usize
    requires { depth + 1 < 2 ^ 64 }
    ensures value { result ≡ depth_after before byte depth }
    ensures small { result ≤ depth + 1 }
{
    match before {
        Before::Paren => { if byte == b'*' { depth + 1 } else { depth } }
        Before::Star => {
            if byte == b')' {
                depth.saturating_sub(1)
            } else {
                depth
            }
        }
        Before::Other => depth,
    }
}

fn ends(before: Before, byte: u8, depth: usize) -> bool
    ensures { result ≡ is_end before byte depth }
{
    match before {
        Before::Star => byte == b')' && depth == 0,
        Before::Paren => false,
        Before::Other => false,
    }
}

/// How many bytes stand behind an opening mark up to the end of its comment. None where the comment is not closed.
pub fn comment_end(bytes: &[u8]) -> Option<usize>
    ensures found { IfSome result (λ n. CommentEnds bytes.now n) }
    ensures within { IfSome result (λ n. n ≤ length bytes.now) }
    ensures none { IfNone result ((n : ℕ) → CommentEnds bytes.now n → ⊥) }
{
    let mut depth: usize = 0;
    let mut before = Before::Other;
    for (i, b) in bytes.iter().enumerate() {
        if ends(before, *b, depth) {
            return Some(i + 1);
        }
        depth = next_depth(before, *b, depth);
        before = next(before, *b);
    }
    None
}
