//! The commands of the program.
use meaning::{Sequence, Text};

/// What the program is asked to do.
#[derive(Drop)]
pub enum Command {
    /// To answer a query over a folder's tables in memory, with `rows` rows a fragment, at most
    /// 1,048,576, and `vector` rows a vector, at most 4,096.
    Whole {
        folder: Text,
        query: Text,
        rows: u32,
        vector: u32,
    },
    /// To load a folder's tables into files that carry the number `load`, with `rows` rows a
    /// fragment, at most 1,048,576.
    Load {
        folder: Text,
        load: u64,
        rows: u32,
    },
    /// To answer a query for one fragment of the loaded tables.
    Work(WorkCommand),
    /// To gather answers and states of a query over the loaded tables.
    Gather(GatherCommand),
}

/// To answer a query for one fragment of a folder's loaded tables.
#[derive(Drop)]
pub struct WorkCommand {
    pub folder: Text,
    pub query: Text,
    /// At most 4,095.
    pub fragment: u32,
    /// The path under which the answer is written.
    pub out: Text,
    /// How many rows a vector has, from 1 to 4,096.
    pub vector: u32,
}

/// To gather what answers to a query over a folder's loaded tables say together.
#[derive(Drop)]
pub struct GatherCommand {
    pub folder: Text,
    pub query: Text,
    /// The path under which the state is written, where it is to be saved.
    pub save: Option<Text>,
    /// The path of the file that keeps each answer which was taken, where there is to be one. No
    /// states are taken then.
    pub journal: Option<Text>,
    /// Whether what the answers say together is printed though fragments are missing or in
    /// conflict.
    pub preview: bool,
    /// The paths of answers and of states, in the order in which they are taken.
    pub files: Sequence<Text>,
}
