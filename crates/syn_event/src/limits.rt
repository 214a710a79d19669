// What of a program is limited in number.

/// What a limit counts: the bytes of a declared name, the nesting of a part, the tasks beside the main program, the entries,
/// the members of a family, the components of an array, the alternatives of a selective wait, the formals of an entry, and
/// what the rewriters would copy.
#[derive(Clone, Copy, Debug, PartialEq, Eq)]
pub enum What {
    Name,
    Nesting,
    Tasks,
    Entries,
    Members,
    Components,
    Alternatives,
    Formals,
    Copies,
}
