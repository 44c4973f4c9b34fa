ghost use Rattle.std.specs.Prelude.{true, ◌≡◌, ◌==◌, ◌<◌, ◌/◌, ◌%◌, cond, ℕ, List, Some, None, IfOk};
ghost use Rattle.std.specs.Str.{bytes_eq};
ghost use Rattle.env_scope.specs.Index.{found};
ghost use Rattle.env_scope.specs.Numbers.{bits_at};

use crate::number::number_of;
use crate::tree::{Binding, Tree};
use bumpalo::Bump;
use tl_text::NoMemory;

// So many bits of a number order the tree. Below them names stand in a row.
const BITS: u32 = 32;

// The tree, which stands at that depth, with the binding in the place of what it had under its name.
#[cycle(insert)]
pub fn insert<'a>(
    arena: &'a Bump,
    tree: &'a Tree<'a>,
    bits: u32,
    depth: u32,
    binding: &'a Binding<'a>,
) -> Result<Tree<'a>, NoMemory>
    requires { bits ≡ bits_at depth binding.now.name.now }
    ensures { IfOk result (λ t. (n : List ℕ) → found t (bits_at depth n) n
        ≡ cond (bytes_eq binding.now.name.now n) (Some binding.now) (found tree.now (bits_at depth n) n)) }
{
    if depth >= BITS {
        return Ok(Tree::One(binding, tree));
    }
    match *tree {
        Tree::Empty => Ok(Tree::One(binding, tree)),
        Tree::One(old, rest) => insert_beside(arena, tree, old, rest, bits, depth, binding),
        Tree::Fork(even, odd) => insert_under(arena, even, odd, bits, depth, binding),
    }
}

// The same where the tree begins with a binding.
#[cycle(insert)]
fn insert_beside<'a>(
    arena: &'a Bump,
    tree: &'a Tree<'a>,
    old: &'a Binding<'a>,
    rest: &'a Tree<'a>,
    bits: u32,
    depth: u32,
    binding: &'a Binding<'a>,
) -> Result<Tree<'a>, NoMemory>
    requires tree { (n : List ℕ) (k : ℕ) → found tree.now k n ≡ cond (bytes_eq old.now.name.now n) (Some old.now) (found rest.now k n) }
    requires bits { bits ≡ bits_at depth binding.now.name.now }
    requires depth { depth < 32 }
    ensures { IfOk result (λ t. (n : List ℕ) → found t (bits_at depth n) n
        ≡ cond (bytes_eq binding.now.name.now n) (Some binding.now) (found tree.now (bits_at depth n) n)) }
{
    if old.name == binding.name {
        return Ok(Tree::One(binding, rest));
    }
    if !is_empty(rest) {
        return Ok(Tree::One(binding, tree));
    }
    if (number_of(old.name) >> depth) % 2 == 0 {
        insert_under(arena, tree, rest, bits, depth, binding)
    } else {
        insert_under(arena, rest, tree, bits, depth, binding)
    }
}

// The same where the tree forks.
#[cycle(insert)]
fn insert_under<'a>(
    arena: &'a Bump,
    even: &'a Tree<'a>,
    odd: &'a Tree<'a>,
    bits: u32,
    depth: u32,
    binding: &'a Binding<'a>,
) -> Result<Tree<'a>, NoMemory>
    requires bits { bits ≡ bits_at depth binding.now.name.now }
    requires depth { depth < 32 }
    ensures { IfOk result (λ t. (n : List ℕ) → found t (bits_at depth n) n
        ≡ cond (bytes_eq binding.now.name.now n) (Some binding.now)
        (cond (bits_at depth n % 2 == 0) (found even.now (bits_at depth n / 2) n) (found odd.now (bits_at depth n / 2) n))) }
{
    if bits % 2 == 0 {
        let even = insert(arena, even, bits / 2, depth + 1, binding)?;
        Ok(Tree::Fork(arena.try_alloc(even)?, odd))
    } else {
        let odd = insert(arena, odd, bits / 2, depth + 1, binding)?;
        Ok(Tree::Fork(even, arena.try_alloc(odd)?))
    }
}

// Whether a tree has nothing.
fn is_empty(tree: &Tree<'_>) -> bool
    ensures { result ≡ true → (n : List ℕ) (k : ℕ) → found tree.now k n ≡ None }
{
    match tree {
        Tree::Empty => true,
        _ => false,
    }
}
