//! The tree of a query as it is written.
use meaning::{ArithmeticOperator, Boxed, ComparisonOperator, Sequence, Text};

/// A query as it is written: names aren't looked up yet, and all names are in lower case.
#[derive(Drop)]
pub struct Query {
    /// SELECT DISTINCT
    pub distinct: bool,
    pub items: Sequence<Item>,
    pub source: Source,
    pub filter: Option<Expr>,
    pub group_by: Sequence<Expr>,
    pub having: Option<Expr>,
    pub order_by: Sequence<OrderKey>,
    pub limit: Option<u64>,
}

/// An item of SELECT, with the name that AS gives it.
#[derive(Drop)]
pub struct Item {
    pub expr: Expr,
    pub alias: Option<Text>,
}

/// FROM: the first table, and the others in the order of the text.
#[derive(Drop)]
pub struct Source {
    pub first: Table,
    pub others: Sequence<Joined>,
}

#[derive(Drop)]
pub struct Table {
    pub name: Text,
    pub alias: Option<Text>,
}

/// How a table of FROM is joined to those before it.
#[derive(Drop)]
pub enum JoinKind {
    /// By a comma. Its condition stands in WHERE.
    Comma,
    /// By JOIN, with the condition of its ON.
    Inner(Expr),
    /// By LEFT JOIN, with the condition of its ON.
    Left(Expr),
}

/// A further table of FROM.
#[derive(Drop)]
pub struct Joined {
    pub table: Table,
    pub kind: JoinKind,
}

#[derive(Drop)]
pub struct OrderKey {
    pub target: OrderTarget,
    pub direction: Direction,
}

/// What ORDER BY names: an item by its position, counted from 1, or by its name.
#[derive(Drop)]
pub enum OrderTarget {
    Position(u64),
    Name(Text),
}

#[derive(Clone, Copy)]
pub enum Direction {
    Ascending,
    Descending,
}

/// `CountDistinct` is COUNT(DISTINCT ..), and `SumDistinct` SUM(DISTINCT ..).
#[derive(Clone, Copy, PartialEq, Eq)]
pub enum Aggregate {
    Count,
    CountDistinct,
    Sum,
    SumDistinct,
    Min,
    Max,
    Average,
}

/// An expression over names. Brackets leave no trace. Where a node has a `negated`, NOT is written
/// within it, as in `x NOT IN (..)`.
#[cycle(expr)]
#[derive(Drop)]
pub enum Expr {
    Column {
        table: Option<Text>,
        name: Text,
    },
    /// A minus right before the digits belongs to the literal.
    Integer(i64),
    Text(Text),
    /// COUNT(*)
    CountRows,
    Aggregate {
        kind: Aggregate,
        argument: Boxed<Expr>,
    },
    Minus(Boxed<Expr>),
    Arithmetic {
        operator: ArithmeticOperator,
        left: Boxed<Expr>,
        right: Boxed<Expr>,
    },
    Compare {
        operator: ComparisonOperator,
        left: Boxed<Expr>,
        right: Boxed<Expr>,
    },
    Not(Boxed<Expr>),
    And {
        left: Boxed<Expr>,
        right: Boxed<Expr>,
    },
    Or {
        left: Boxed<Expr>,
        right: Boxed<Expr>,
    },
    IsNull {
        negated: bool,
        subject: Boxed<Expr>,
    },
    Between {
        negated: bool,
        subject: Boxed<Expr>,
        low: Boxed<Expr>,
        high: Boxed<Expr>,
    },
    In {
        negated: bool,
        subject: Boxed<Expr>,
        entries: Sequence<Expr>,
    },
    Like {
        negated: bool,
        subject: Boxed<Expr>,
        pattern: Text,
    },
    Coalesce(Sequence<Expr>),
    /// No ELSE is the same as ELSE NULL.
    Case {
        arms: Sequence<Arm>,
        otherwise: Option<Boxed<Expr>>,
    },
}

/// `WHEN condition THEN value`.
#[cycle(expr)]
#[derive(Drop)]
pub struct Arm {
    pub condition: Expr,
    pub value: Expr,
}
