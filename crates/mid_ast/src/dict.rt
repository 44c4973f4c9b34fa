use tl_text::{List, Path};

/// What tests two values of one type for equality, by the type: the dictionary that a use of an equality variable is
/// given.
#[cycle(dict)]
#[derive(Drop)]
pub enum Dict {
    /// A type of the initial basis that the text compares by itself, by its type name's number: int 0, word 1, char 2,
    /// string 3.
    Base(u32),
    /// The equality function of a type name, applied to the dictionaries of its arguments. Before the homes are placed
    /// the path is `eq` and the type name's number in decimal digits; after it the path is the written one.
    At(Path, List<Dict>),
    /// The dictionary of the equality variable at that place: in a `MidBind` among the equality variables of the
    /// bindings round it and then of its own, the outermost first; in a `Coercion` among those of the path's scheme, or
    /// the parameter of the type function at that place.
    Given(u32),
    /// References, whatever they hold: two are equal where they are one.
    Cells,
    /// A record, by the dictionaries of its fields in the order of the labels. `unit` has none.
    Parts(List<Dict>),
}
