// The commands of a file, by what they are for.
#[derive(Clone, Copy, Debug, PartialEq, Eq)]
pub(crate) enum CommandKind {
    Left,
    Right,
    Pair,
    Rename,
    End,
}
