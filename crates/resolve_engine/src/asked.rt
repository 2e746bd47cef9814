//! What is asked for beside the names.

/// A database whose statements are written.
#[derive(Clone, Copy, PartialEq, Eq)]
pub enum Database {
    PostgreSql,
    MariaDb,
}

/// How answers are written.
#[derive(Clone, Copy, PartialEq, Eq)]
pub enum AnswerForm {
    /// A line `NAME WORD`.
    Lines,
    /// And why, a line more.
    Explained,
    /// The statement that does it, with the reason as its comment.
    Sql(Database),
}

/// What the caller says of the logs.
#[derive(Clone, Copy, PartialEq, Eq)]
pub enum Trust {
    /// They may be copies, old or cut: only what is in them counts.
    Parts,
    /// They are the logs as they are, and their processes do not run: what is not in them counts, too.
    Complete,
}

/// What is asked for beside the names.
#[derive(Clone, Copy)]
pub struct ResolveInput<'a> {
    /// The name of the tree, which is in the names of branches in databases.
    pub name: Option<&'a str>,
    pub trust: Trust,
    pub form: AnswerForm,
}
