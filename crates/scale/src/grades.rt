// The grade scale.
ghost use Rattle.std.specs.Prelude.{◌≡◌, Some};
ghost use Rattle.scale.specs.Grades.{grade_order, grade_bytes};
ghost use Rattle.std.proofs.Common.{rules};
ghost use Rattle.scale.specs.Grading.{grade_forms};

use super::order::Scale;
use super::writing::{Written, put};
use std::fmt;

/// How strongly something holds, rising from absent to full.
#[derive(Clone, Copy, Debug, PartialEq, Eq, PartialOrd, Ord, Hash)]
pub enum Grade {
    Absent,
    Trace,
    Partial,
    Strong,
    Full,
}

// Every grade, rising.
const GRADES: [Grade; 5] = [
    Grade::Absent,
    Grade::Trace,
    Grade::Partial,
    Grade::Strong,
    Grade::Full,
];

impl Grade {
    // The word that the grade is written as.
    fn word(self) -> &'static str
        ensures { result.now ≡ grade_bytes self }
    {
        match self {
            Grade::Absent => "absent",
            Grade::Trace => "trace",
            Grade::Partial => "partial",
            Grade::Strong => "strong",
            Grade::Full => "full",
        }
    }
}

impl Scale for Grade {
    ghost order = { grade_order };

    ghost laws = { Prim.search rules };

    fn lowest() -> Grade {
        Self::Absent
    }

    fn highest() -> Grade {
        Self::Full
    }

    fn at_most(self, other: Grade) -> bool {
        self <= other
    }
}

impl Written for Grade {
    ghost WIDTH = { 7 };

    const WIDTH: usize = 7;

    ghost bytes = { grade_bytes };

    ghost forms = { grade_forms };

    fn printed_len(self) -> usize {
        self.word().len()
    }

    fn print(self, out: &mut [u8], at: usize) -> Option<usize> {
        put(self.word().as_bytes(), out, at)
    }

    fn read(word: &[u8]) -> Option<Grade> {
        // A `find` was tried here, and its proof is much longer than the invariant of this loop.
        for grade in GRADES {
            if grade.word().as_bytes() == word {
                return Some(grade);
            }
        }
        None
    }
}

// This is by hand, since a derived text has no contract.
impl fmt::Display for Grade {
    ghost output = { λ grade. Some (grade_bytes grade) };

    fn fmt<W: fmt::Write>(&self, f: &mut fmt::Formatter<W>) -> fmt::Result {
        f.write_str(self.word())
    }
}
