// What a line is, its parts left out.
ghost use Rattle.std.specs.Prelude.{◌≡◌, ℕ};
ghost use Rattle.lines.specs.Judgement.{formed_by};
ghost use Rattle.structure.specs.Sorts.{lone_sort, manner, sort_of};

use lines::{Form, Lone};

#[derive(Clone, Copy, Debug, PartialEq, Eq)]
pub enum Sort {
    Declaration,
    Skip,
    Stop,
    Assign,
    Input,
    Output,
    Seq,
    Par,
    If,
    // ALT and PRI ALT
    Alt,
    While,
    Choice,
    // a guard with a condition
    Guard,
}

// How the lines below a line go on: one after the other (SEQ), as branches (PAR), as a loop's body (WHILE),
// as choices (IF), or as what goes on after the line (all others).
#[derive(Clone, Copy, Debug, PartialEq, Eq)]
pub enum Manner {
    Sequence,
    Branches,
    Loop,
    Choices,
    Body,
}

fn lone_sort(lone: Lone) -> Sort
    ensures { result ≡ lone_sort lone }
{
    match lone {
        Lone::Skip => Sort::Skip,
        Lone::Stop => Sort::Stop,
        Lone::Seq => Sort::Seq,
        Lone::Par => Sort::Par,
        Lone::If => Sort::If,
        Lone::Alt | Lone::PriAlt => Sort::Alt,
    }
}

// The sort of a line: no `From`, since a form is more than its sort. It is the same whatever its channel's number is.
pub fn sort_of<C>(form: &Form<C>) -> Sort
    ensures { (number : C → ℕ) → result ≡ sort_of (formed_by number form.now) }
{
    match form {
        Form::Variables { .. } | Form::Channels { .. } | Form::Place { .. } => Sort::Declaration,
        Form::Lone(lone) => lone_sort(*lone),
        Form::Assign { .. } => Sort::Assign,
        Form::Input { .. } => Sort::Input,
        Form::Output { .. } => Sort::Output,
        Form::While { .. } => Sort::While,
        Form::Choice { .. } => Sort::Choice,
        Form::Guard { .. } | Form::SkipGuard { .. } => Sort::Guard,
    }
}

impl Sort {
    // How the lines below it go on. A declaration is passed by, as an empty SEQ is.
    pub fn manner(self) -> Manner
        ensures { result ≡ manner self }
    {
        match self {
            Sort::Declaration | Sort::Seq => Manner::Sequence,
            Sort::Par => Manner::Branches,
            Sort::While => Manner::Loop,
            Sort::If => Manner::Choices,
            _ => Manner::Body,
        }
    }
}
