// Each answer of the product as a C caller gets it: document 01's number and its values.
#![tactic(auto)]

ghost use Rattle.std.specs.Prelude.{◌≡◌, Err};
ghost use Rattle.site.specs.Given.{fault_given, done_given, clash_given};
ghost use Rattle.judges.specs.Given.{load_given, chain_given, class_given, least_given};
ghost use Rattle.heaviest.specs.Given.{heaviest_given};
ghost use Rattle.planner.specs.Given.{plan_given};
ghost use Rattle.search.specs.Given.{search_given};
ghost use Rattle.finder.specs.Given.{find_given, over_full_given};
ghost use Rattle.handheld.specs.Given.{change_given};
ghost use Rattle.checker.specs.Given.{check_given};
ghost use Rattle.wordtable.specs.Given.{form_given};
ghost use Rattle.mender.specs.Given.{mend_given};
ghost use Rattle.numbering.specs.Given.{renumber_given, carry_given};
ghost use Rattle.shares.specs.Given.{share_given};
ghost use Rattle.admission.specs.Given.{admit_given, beside_given};
ghost use Rattle.records.specs.Given.{read_given, written_given};
ghost use Rattle.planfile.specs.Given.{plan_written_given};
ghost use Rattle.sheet.specs.Given.{sheet_given};
ghost use Rattle.tidying.specs.Given.{tidy_given};
ghost use Rattle.told.specs.Told.{numbered, told, told_renumbered};

use admission::{AdmitError, BesideError};
use checker::CheckError;
use finder::{FindError, OverFull, Way};
use handheld::ChangeError;
use judges::{ChainVerdict, ClassVerdict, LeastVerdict, LoadVerdict};
use mender::MendError;
use numbering::{CarryError, RenumberError, Renumbered};
use planfile::PlanWriteError;
use planner::PlanError;
use records::{Refusal, WriteError};
use search::SearchError;
use shares::{Fragments, ShareError, Slots};
use sheet::SheetError;
use site::{Fault, Site};
use tidying::TidyError;
use wordtable::FormError;

// dugg_answer: the number given back, and the values that belong to it.
#[repr(C)]
#[derive(Clone, Copy)]
pub struct Answer {
    pub number: u64,
    pub value: [u64; 3],
}

// dugg_renumbered: a site in new numbers, the new number of each old one and the old number of each new one, and the answer.
#[repr(C)]
#[derive(Clone, Copy)]
pub struct RenumberedC {
    pub site: Site,
    pub new: [u16; 32],
    pub old: [u16; 32],
    pub answer: Answer,
}

// A number and its three values; 0 stands for a value that the document does not name.
pub fn give(number: u64, a: usize, b: usize, c: usize) -> Answer
    ensures { result ≡ numbered number a b c }
{
    Answer {
        number,
        value: [a as u64, b as u64, c as u64],
    }
}

// From here on: an answer of the product as its number and values.
// What looks alike in these conversions is the shape of a `match`: each reads an answer type of its own, and has a law of its own.
impl From<Fault> for Answer {
    ghost from_gives = { λ said a. a ≡ told (fault_given said) };

    #[tactic(auto, unfolding(crate::specs::Told::told))]
    fn from(said: Fault) -> Answer {
        match said {
            Fault::Size => give(1, 0, 0, 0),
            Fault::Rule => give(24, 0, 0, 0),
            Fault::Load(cell) => give(2, cell, 0, 0),
            Fault::Reach(row) => give(3, row, 0, 0),
            Fault::Blocked(position) => give(20, position, 0, 0),
        }
    }
}

impl From<Result<(), Fault>> for Answer {
    ghost from_gives = { λ said a. a ≡ told (done_given said) };

    #[tactic(auto, unfolding(crate::specs::Told::told))]
    fn from(said: Result<(), Fault>) -> Answer {
        match said {
            Ok(()) => give(0, 0, 0, 0),
            Err(f) => Answer::from(f),
        }
    }
}

impl From<Result<bool, Fault>> for Answer {
    ghost from_gives = { λ said a. a ≡ told (clash_given said) };

    #[tactic(auto, unfolding(crate::specs::Told::told))]
    fn from(said: Result<bool, Fault>) -> Answer {
        match said {
            Ok(false) => give(0, 0, 0, 0),
            Ok(true) => give(0, 1, 0, 0),
            Err(f) => Answer::from(f),
        }
    }
}

impl From<Result<LoadVerdict, Fault>> for Answer {
    ghost from_gives = { λ said a. a ≡ told (load_given said) };

    #[tactic(auto, unfolding(crate::specs::Told::told))]
    fn from(said: Result<LoadVerdict, Fault>) -> Answer {
        match said {
            Ok(LoadVerdict::Holds) => give(0, 0, 0, 0),
            Ok(LoadVerdict::Over(cell, excess)) => give(0, cell, excess, 0),
            Err(f) => Answer::from(f),
        }
    }
}

impl From<Result<ChainVerdict, Fault>> for Answer {
    ghost from_gives = { λ said a. a ≡ told (chain_given said) };

    #[tactic(auto, unfolding(crate::specs::Told::told))]
    fn from(said: Result<ChainVerdict, Fault>) -> Answer {
        match said {
            Ok(ChainVerdict::Chained) => give(0, 0, 0, 0),
            Ok(ChainVerdict::Broken(a, b, c)) => give(0, a, b, c),
            Err(f) => Answer::from(f),
        }
    }
}

impl From<Result<ClassVerdict, Fault>> for Answer {
    ghost from_gives = { λ said a. a ≡ told (class_given said) };

    #[tactic(auto, unfolding(crate::specs::Told::told))]
    fn from(said: Result<ClassVerdict, Fault>) -> Answer {
        match said {
            Ok(ClassVerdict::InClass) => give(0, 0, 0, 0),
            Ok(ClassVerdict::Outside(a, b, i)) => give(0, a, b, i),
            Err(f) => Answer::from(f),
        }
    }
}

impl From<Result<LeastVerdict, Fault>> for Answer {
    ghost from_gives = { λ said a. a ≡ told (least_given said) };

    #[tactic(auto, unfolding(crate::specs::Told::told))]
    fn from(said: Result<LeastVerdict, Fault>) -> Answer {
        match said {
            Ok(LeastVerdict::Least(n)) => give(0, n, 0, 0),
            Ok(LeastVerdict::Enough(n)) => give(0, n, 1, 0),
            Err(f) => Answer::from(f),
        }
    }
}

impl From<Result<(usize, u32), Fault>> for Answer {
    ghost from_gives = { λ said a. a ≡ told (heaviest_given said) };

    #[tactic(auto, unfolding(crate::specs::Told::told))]
    fn from(said: Result<(usize, u32), Fault>) -> Answer {
        match said {
            Ok((load, cells)) => give(0, load, cells as usize, 0),
            Err(f) => Answer::from(f),
        }
    }
}

impl From<Result<(), PlanError>> for Answer {
    ghost from_gives = { λ said a. a ≡ told (plan_given said) };

    #[tactic(auto, unfolding(crate::specs::Told::told))]
    fn from(said: Result<(), PlanError>) -> Answer {
        match said {
            Ok(()) => give(0, 0, 0, 0),
            Err(PlanError::TableShort) => give(4, 0, 0, 0),
            Err(PlanError::NoRoom(cell, short)) => give(5, cell, short, 0),
            Err(PlanError::Record(f)) => Answer::from(f),
        }
    }
}

impl From<Result<u64, SearchError>> for Answer {
    ghost from_gives = { λ said a. a ≡ told (search_given said) };

    #[tactic(auto, unfolding(crate::specs::Told::told))]
    fn from(said: Result<u64, SearchError>) -> Answer {
        match said {
            Ok(tries) => give(0, 0, tries as usize, 0),
            Err(SearchError::Full(tries)) => give(0, 1, tries as usize, 0),
            Err(SearchError::Limit(tries)) => give(0, 2, tries as usize, 0),
            Err(SearchError::TooMany) => give(25, 0, 0, 0),
            Err(SearchError::TableShort) => give(4, 0, 0, 0),
            Err(SearchError::Record(f)) => Answer::from(f),
        }
    }
}

impl From<Result<Way, FindError>> for Answer {
    ghost from_gives = { λ said a. a ≡ told (find_given said) };

    #[tactic(auto, unfolding(crate::specs::Told::told))]
    fn from(said: Result<Way, FindError>) -> Answer {
        match said {
            Ok(Way::Greedy) => give(0, 0, 0, 0),
            Ok(Way::Renumbered) => give(0, 0, 2, 0),
            Ok(Way::Searched(tries)) => give(0, 0, 3, tries as usize),
            Err(FindError::Full(cells)) => give(0, 1, 1, cells as usize),
            Err(FindError::FullInClass) => give(0, 1, 2, 0),
            Err(FindError::FullSearched(tries)) => give(0, 1, 3, tries as usize),
            Err(FindError::NotKnown(tries)) => give(0, 2, 3, tries as usize),
            Err(FindError::TableShort) => give(4, 0, 0, 0),
            Err(FindError::Record(f)) => Answer::from(f),
        }
    }
}

impl From<Result<OverFull, Fault>> for Answer {
    ghost from_gives = { λ said a. a ≡ told (over_full_given said) };

    #[tactic(auto, unfolding(crate::specs::Told::told))]
    fn from(said: Result<OverFull, Fault>) -> Answer {
        match said {
            Ok(OverFull::Over(load)) => give(0, 1, load, 0),
            Ok(OverFull::Within(load)) => give(0, 0, load, 0),
            Err(f) => Answer::from(f),
        }
    }
}

impl From<Result<(), ChangeError>> for Answer {
    ghost from_gives = { λ said a. a ≡ told (change_given said) };

    #[tactic(auto, unfolding(crate::specs::Told::told))]
    fn from(said: Result<(), ChangeError>) -> Answer {
        match said {
            Ok(()) => give(0, 0, 0, 0),
            Err(ChangeError::TableShort) => give(4, 0, 0, 0),
            Err(ChangeError::NotPlan) => give(26, 0, 0, 0),
            Err(ChangeError::NoRoom(cell, short)) => give(5, cell, short, 0),
            Err(ChangeError::Record(f)) => Answer::from(f),
        }
    }
}

impl From<Result<(), CheckError>> for Answer {
    ghost from_gives = { λ said a. a ≡ told (check_given said) };

    #[tactic(auto, unfolding(crate::specs::Told::told))]
    fn from(said: Result<(), CheckError>) -> Answer {
        match said {
            Ok(()) => give(0, 0, 0, 0),
            Err(CheckError::TableShort) => give(4, 0, 0, 0),
            Err(CheckError::Blocked(position, cell)) => give(22, position, cell, 0),
            Err(CheckError::Clash(position, a, c)) => give(6, position, a, c),
            Err(CheckError::Count(cell, count)) => give(7, cell, count, 0),
            Err(CheckError::Record(f)) => Answer::from(f),
        }
    }
}

impl From<Result<(), FormError>> for Answer {
    ghost from_gives = { λ said a. a ≡ told (form_given said) };

    #[tactic(auto, unfolding(crate::specs::Told::told))]
    fn from(said: Result<(), FormError>) -> Answer {
        match said {
            Ok(()) => give(0, 0, 0, 0),
            Err(FormError::TableShort) => give(4, 0, 0, 0),
            Err(FormError::Record(f)) => Answer::from(f),
        }
    }
}

impl From<Result<usize, MendError>> for Answer {
    ghost from_gives = { λ said a. a ≡ told (mend_given said) };

    #[tactic(auto, unfolding(crate::specs::Told::told))]
    fn from(said: Result<usize, MendError>) -> Answer {
        match said {
            Ok(many) => give(0, many, 0, 0),
            Err(MendError::TableShort) => give(4, 0, 0, 0),
            Err(MendError::NoRoom(cell, short)) => give(5, cell, short, 0),
            Err(MendError::ListShort(many)) => give(13, many, 0, 0),
            Err(MendError::Record(f)) => Answer::from(f),
        }
    }
}

impl From<Result<(), RenumberError>> for Answer {
    ghost from_gives = { λ said a. a ≡ told (renumber_given said) };

    #[tactic(auto, unfolding(crate::specs::Told::told))]
    fn from(said: Result<(), RenumberError>) -> Answer {
        match said {
            Ok(()) => give(0, 0, 0, 0),
            Err(RenumberError::NoNumbering) => give(23, 0, 0, 0),
            Err(RenumberError::Record(f)) => Answer::from(f),
        }
    }
}

impl From<Result<(), CarryError>> for Answer {
    ghost from_gives = { λ said a. a ≡ told (carry_given said) };

    #[tactic(auto, unfolding(crate::specs::Told::told))]
    fn from(said: Result<(), CarryError>) -> Answer {
        match said {
            Ok(()) => give(0, 0, 0, 0),
            Err(CarryError::NoNumbering) => give(23, 0, 0, 0),
            Err(CarryError::TableShort) => give(4, 0, 0, 0),
            Err(CarryError::Record(f)) => Answer::from(f),
        }
    }
}

impl From<Result<(Fragments, Fragments, Slots), ShareError>> for Answer {
    ghost from_gives = { λ said a. a ≡ told (share_given said) };

    #[tactic(auto, unfolding(crate::specs::Told::told))]
    fn from(said: Result<(Fragments, Fragments, Slots), ShareError>) -> Answer {
        match said {
            Ok((share, queue, delay)) => give(
                0,
                share.0 as usize,
                queue.0 as usize,
                delay.0 as usize,
            ),
            Err(ShareError::OutOfRange) => give(1, 0, 0, 0),
            Err(ShareError::BadFlow) => give(15, 0, 0, 0),
            Err(ShareError::BigShare) => give(16, 0, 0, 0),
        }
    }
}

impl From<AdmitError> for Answer {
    ghost from_gives = { λ said a. a ≡ told (admit_given (Err said)) };

    #[tactic(auto, unfolding(crate::specs::Told::told))]
    fn from(said: AdmitError) -> Answer {
        match said {
            AdmitError::TooMany => give(18, 0, 0, 0),
            AdmitError::NotNested => give(19, 0, 0, 0),
            AdmitError::BadCell(flow) => give(2, flow, 0, 0),
            AdmitError::BadFlow(flow) => give(15, flow, 0, 0),
            AdmitError::BigShare(flow) => give(16, flow, 0, 0),
            AdmitError::Record(f) => Answer::from(f),
        }
    }
}

impl From<Result<u32, AdmitError>> for Answer {
    ghost from_gives = { λ said a. a ≡ told (admit_given said) };

    #[tactic(auto, unfolding(crate::specs::Told::told))]
    fn from(said: Result<u32, AdmitError>) -> Answer {
        match said {
            Ok(set) => give(0, set as usize, 0, 0),
            Err(refused) => Answer::from(refused),
        }
    }
}

impl From<Result<u32, BesideError>> for Answer {
    ghost from_gives = { λ said a. a ≡ told (beside_given said) };

    #[tactic(auto, unfolding(crate::specs::Told::told))]
    fn from(said: Result<u32, BesideError>) -> Answer {
        match said {
            Ok(set) => give(0, set as usize, 0, 0),
            Err(BesideError::Over(cell, excess)) => give(5, cell, excess, 0),
            Err(BesideError::Admit(refused)) => Answer::from(refused),
        }
    }
}

impl From<Result<(), Refusal>> for Answer {
    ghost from_gives = { λ said a. a ≡ told (read_given said) };

    #[tactic(auto, unfolding(crate::specs::Told::told))]
    fn from(said: Result<(), Refusal>) -> Answer {
        match said {
            Ok(()) => give(0, 0, 0, 0),
            Err(refusal) => give(refusal.number as u64, refusal.place, 0, 0),
        }
    }
}

impl From<Result<usize, WriteError>> for Answer {
    ghost from_gives = { λ said a. a ≡ told (written_given said) };

    #[tactic(auto, unfolding(crate::specs::Told::told))]
    fn from(said: Result<usize, WriteError>) -> Answer {
        match said {
            Ok(n) => give(0, n, 0, 0),
            Err(WriteError::OutShort(n)) => give(13, n, 0, 0),
            Err(WriteError::Record(f)) => Answer::from(f),
        }
    }
}

impl From<Result<usize, PlanWriteError>> for Answer {
    ghost from_gives = { λ said a. a ≡ told (plan_written_given said) };

    #[tactic(auto, unfolding(crate::specs::Told::told))]
    fn from(said: Result<usize, PlanWriteError>) -> Answer {
        match said {
            Ok(n) => give(0, n, 0, 0),
            Err(PlanWriteError::TableShort) => give(4, 0, 0, 0),
            Err(PlanWriteError::OutShort(n)) => give(13, n, 0, 0),
            Err(PlanWriteError::Record(f)) => Answer::from(f),
        }
    }
}

impl From<Result<(), SheetError>> for Answer {
    ghost from_gives = { λ said a. a ≡ told (sheet_given said) };

    #[tactic(auto, unfolding(crate::specs::Told::told))]
    fn from(said: Result<(), SheetError>) -> Answer {
        match said {
            Ok(()) => give(0, 0, 0, 0),
            Err(SheetError::BadLine(line)) => give(17, line, 0, 0),
            Err(SheetError::Record(f)) => Answer::from(f),
        }
    }
}

impl From<Result<usize, TidyError>> for Answer {
    ghost from_gives = { λ said a. a ≡ told (tidy_given said) };

    #[tactic(auto, unfolding(crate::specs::Told::told))]
    fn from(said: Result<usize, TidyError>) -> Answer {
        match said {
            Ok(bytes) => give(0, bytes, 0, 0),
            Err(TidyError::OutShort(bytes)) => give(13, bytes, 0, 0),
            Err(TidyError::BadLine(line)) => give(17, line, 0, 0),
        }
    }
}

impl From<Renumbered> for RenumberedC {
    ghost from_gives = { λ e a. a ≡ told_renumbered e };

    #[tactic(auto, unfolding(crate::specs::Told::told_renumbered))]
    fn from(e: Renumbered) -> RenumberedC {
        let new = e.new;
        let old = e.old;
        RenumberedC {
            site: e.site,
            new,
            old,
            answer: Answer::from(e.answer),
        }
    }
}
