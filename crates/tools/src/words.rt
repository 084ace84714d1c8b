//! What a tool is asked to do.
use meaning::{Sequence, Text};

/// What the program is asked to do beside answering queries.
#[derive(Drop)]
pub enum Tool {
    /// To write a catalogue for a folder's CSV files.
    Init(InitWords),
    /// To say what a refusal means, by the words of its line.
    Refusal(Sequence<Text>),
    /// To print the plan of a query.
    Explain(ExplainWords),
    /// To print what stands in a file.
    Show(ShowWords),
    /// To say the first fault that a load of a folder's tables would have.
    Check(CheckWords),
    /// To print the program's version.
    Version,
}

/// To write a catalogue for a folder's CSV files.
#[derive(Drop)]
pub struct InitWords {
    pub folder: Text,
    /// The name of the fact table, where it isn't to be that of the largest file.
    pub fact: Option<Text>,
}

/// To say the first fault that a load of a folder's tables would have.
#[derive(Drop)]
pub struct CheckWords {
    pub folder: Text,
}

/// To print the plan of a query over the tables that a folder's catalogue declares.
#[derive(Drop)]
pub struct ExplainWords {
    pub folder: Text,
    pub query: Text,
}

/// To print what stands in a file that the program wrote.
#[derive(Drop)]
pub struct ShowWords {
    pub path: Text,
    /// How many of a table's first rows are printed in place of its parts.
    pub rows: Option<u32>,
    /// Whether each group of an answer is printed.
    pub groups: bool,
}
