// The cases of `probe` beside the month: boards of strikes (4), volatile days (5 and 12), rows eased on them (6, 13 and 14), the standing of
// makers (7) and safe minutes (8).
#![tactic(auto)]

mod boards;
mod days;
mod eased;
mod maker_calls;
mod safe;

use console::{Case, CaseError};

// A case of that kind. The number is the input's, and each arm names its case: an enum between them would name each of them twice more.
pub fn case(rt: &impl Print, kind: u32, case: Case<'_>) -> Result<(), CaseError> {
    match kind {
        4 => boards::board_case(rt, case),
        5 => days::day_case(rt, case),
        6 => eased::row_case(rt, case),
        7 => maker_calls::standing_case(rt, case),
        8 => safe::safe_case(rt, case),
        12 => days::days_case(rt, case),
        13 => eased::strike_case(rt, case),
        14 => eased::inside_case(rt, case),
        _ => Err(CaseError::NoCase),
    }
}
