// The instructions of the machine.

use flt_syntax::{Arithmetic, Choice, Function, RangePart};
use flt_typed::{Constant, Extreme, Member, Relation};
use pk_base::Layers;
use pk_fields::FieldId;
use std::marker::Model;

/// The ranges of a slice.
#[derive(Drop)]
pub struct RangeList {
    all: Vec<RangePart>,
}

impl Model for RangeList {
    ghost use Rattle.std.specs.Prelude.{List};
    ghost use Rattle.flt_syntax.specs.declared.ast.RangePart.{RangePart};

    ghost Value = { List RangePart };

    ghost view = { λ list. list.all.items };
}

impl RangeList {
    ghost use Rattle.std.specs.Prelude.{◌≡◌};

    pub fn from_vec(all: Vec<RangePart>) -> RangeList
        ensures { result ≡ all.items }
    {
        RangeList { all }
    }

    pub fn slice(&self) -> &[RangePart]
        ensures { result.now ≡ self.now }
    {
        self.all.as_slice()
    }
}

/// The members of a set.
#[derive(Drop)]
pub struct MemberList {
    all: Vec<Member>,
}

impl Model for MemberList {
    ghost use Rattle.std.specs.Prelude.{List};
    ghost use Rattle.flt_typed.specs.declared.typed.Member.{Member};

    ghost Value = { List Member };

    ghost view = { λ list. list.all.items };
}

impl MemberList {
    ghost use Rattle.std.specs.Prelude.{◌≡◌};

    pub fn from_vec(all: Vec<Member>) -> MemberList
        ensures { result ≡ all.items }
    {
        MemberList { all }
    }

    pub fn slice(&self) -> &[Member]
        ensures { result.now ≡ self.now }
    {
        self.all.as_slice()
    }
}

/// An instruction. Registers are named by their number, and the one that an instruction sets comes first. A jump says how
/// many instructions it passes over.
#[derive(Drop)]
pub enum Instr {
    /// Sets an unset register to the values of a field or protocol in the layers that are chosen.
    Read(usize, FieldId, Layers),
    /// Sets a register to one value.
    Const(usize, Constant),
    /// Sets a register to the slices of another's values.
    Slice(usize, usize, RangeList),
    /// Sets a register to the bits of another's numbers that are set in a mask.
    Mask(usize, usize, u64),
    /// Sets a register to what a function gives of each of another's values.
    Call(usize, Function, usize),
    /// Sets a register to how many values a field or protocol has.
    Count(usize, FieldId, Layers),
    /// Sets a register to the sums, differences or products of two others' numbers.
    Compute(usize, Arithmetic, usize, usize),
    /// Sets a register to the least or the greatest number of two others, if there is one.
    Choose(usize, Extreme, usize, usize),
    /// Sets a register to the flag.
    Save(usize),
    /// Whether any or all pairs of two registers' values stand in the relation.
    Test(Choice, Relation, usize, usize),
    /// Whether any or all of a register's values are in a set.
    In(Choice, usize, MemberList),
    /// Whether the filter's pattern of a number, counted from 0, matches in any or all of a register's values.
    Match(Choice, usize, usize),
    /// Whether a register has a number other than 0.
    NonZero(usize),
    /// Turns the flag.
    Not,
    /// Whether the flag differs from what a register keeps.
    Differ(usize),
    /// Passes over so many instructions where the flag is false.
    JumpFalse(usize),
    /// Passes over so many instructions where the flag is true.
    JumpTrue(usize),
    /// Ends the run: the verdict is the flag.
    Return,
}
