//! Sorts of expressions: values of a type, and truths.
ghost use Rattle.std.specs.Prelude.{◌≡◌};
ghost use Rattle.planner_expressions.specs.Sorts.{same_sort, is_value, sort_of_type, fresh, added, with_arm, first_known};

use meaning::ColType;

/// What an expression is: a value of a type, or a truth.
#[derive(Clone, Copy)]
pub enum Sort {
    Integer,
    Text,
    Truth,
}

impl Sort {
    pub fn of_type(col_type: ColType) -> Sort
        ensures { result ≡ sort_of_type col_type }
    {
        match col_type {
            ColType::Int => Sort::Integer,
            ColType::Text => Sort::Text,
        }
    }

    pub fn is(self, other: Sort) -> bool
        ensures { result ≡ same_sort self other }
    {
        match self {
            Sort::Integer => match other {
                Sort::Integer => true,
                Sort::Text => false,
                Sort::Truth => false,
            },
            Sort::Text => match other {
                Sort::Integer => false,
                Sort::Text => true,
                Sort::Truth => false,
            },
            Sort::Truth => match other {
                Sort::Integer => false,
                Sort::Text => false,
                Sort::Truth => true,
            },
        }
    }

    pub fn is_value(self) -> bool
        ensures { result ≡ is_value self }
    {
        match self {
            Sort::Integer => true,
            Sort::Text => true,
            Sort::Truth => false,
        }
    }
}

/// What is known of some sorts: the first, and whether all of them are values of one type.
#[derive(Clone, Copy)]
pub struct Likeness {
    pub first: Option<Sort>,
    pub alike: bool,
}

impl Likeness {
    /// That of no sort.
    pub fn none() -> Likeness
        ensures { result ≡ fresh }
    {
        Likeness {
            first: None,
            alike: true,
        }
    }

    /// That of one more sort.
    pub fn with(self, sort: Sort) -> Likeness
        ensures { result ≡ added self sort }
    {
        match self.first {
            None => Likeness {
                first: Some(sort),
                alike: sort.is_value(),
            },
            Some(first) => Likeness {
                first: Some(first),
                alike: self.alike && first.is(sort),
            },
        }
    }

    /// The first sort; what has no part is an integer.
    pub fn first_sort(self) -> Sort
        ensures { result ≡ first_known self.first }
    {
        match self.first {
            Some(sort) => sort,
            None => Sort::Integer,
        }
    }
}

/// What is known of the arms of a CASE: whether all conditions are truths, and what their values
/// are.
#[derive(Clone, Copy)]
pub struct ArmSorts {
    pub truths: bool,
    pub values: Likeness,
}

impl ArmSorts {
    /// What is known with one more arm.
    pub fn with(self, condition: Sort, value: Sort) -> ArmSorts
        ensures { result ≡ with_arm self (condition, value) }
    {
        ArmSorts {
            truths: self.truths && Sort::Truth.is(condition),
            values: self.values.with(value),
        }
    }
}
