//! The forms of C that a range is given.

/// What the C of a range looks like.
#[derive(Clone, Copy, Debug, PartialEq, Eq)]
pub enum Form {
    /// Statements, branches and loops as the code has them: a straight line where the code is one, else nested lists with a
    /// loop for each component. Where no plan of these is found that the check lets through, the plain form.
    Structured,
    /// One loop round one switch by the block that comes next.
    Plain,
}
