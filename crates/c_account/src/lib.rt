// A session's account in a lent buffer, for C: the milliseconds of each state and the stretches of one state.
#![tactic(auto)]

ghost use Rattle.std.specs.Prelude.{◌≡◌, ℕ, ◌≤◌, ◌<◌, length};
ghost use Rattle.rules.specs.Terms.{paper};
ghost use Rattle.rules.specs.Units.{steps};
ghost use Rattle.rules.specs.Records.{signed_of};
ghost use Rattle.rules.specs.Session.{most_records};
ghost use Rattle.rules.specs.Accounts.{account};
ghost use Rattle.session_account.specs.Shown.{shown_account};
ghost use Rattle.c_account.specs.Accounts.{strike_of, rule_of, account_number, FillsAccount, short_account, ran_account, headed_account};

use rules::{SpreadRule, Steps, Stopped, Strike};
use session_account::Accounted;

fn short_account(answer: Result<Accounted, Stopped>) -> u64
    ensures { result ≡ short_account (shown_account answer) }
{
    match answer {
        Ok(_) => c_answers::refused(16),
        Err(stop) => c_answers::refused_at(stop.refusal, stop.place),
    }
}

// A run whose buffer has no room for the times and the number of stretches: 16, unless it is refused before.
fn account_short(row: &[u32], spread: SpreadRule, records: &[u8]) -> u64
    ensures { (n : ℕ) → n < 7 → result ≡ account_number n (account paper most_records row.now spread records.now) }
{
    let mut none = [0u32; 1];
    short_account(session_account::run(row, spread, records, &mut none[..0]))
}

// The times and the number of stretches before the stretches, which begin at the eighth word.
fn head_account(answer: Result<Accounted, Stopped>, buffer: &mut [u32]) -> u64
    requires { 7 ≤ length buffer.old }
    ensures number { result ≡ ran_account (shown_account answer) }
    ensures words { buffer.new ≡ headed_account buffer.old answer }
{
    match answer {
        Ok(run) => {
            let times = run.times;
            buffer[0] = times.kept.0;
            buffer[1] = times.no_bid.0;
            buffer[2] = times.no_ask.0;
            buffer[3] = times.neither.0;
            buffer[4] = times.crossed.0;
            buffer[5] = times.wide.0;
            buffer[6] = run.stretches;
            7 + 3 * (run.stretches as u64)
        }
        Err(stop) => c_answers::refused_at(stop.refusal, stop.place),
    }
}

fn run_account(row: &[u32], spread: SpreadRule, records: &[u8], buffer: &mut [u32]) -> u64
    requires { 7 ≤ length buffer.old }
    ensures { FillsAccount (account paper most_records row.now spread records.now) buffer.old buffer.new result }
{
    let answer = session_account::run(row, spread, records, &mut buffer[7..]);
    head_account(answer, buffer)
}

fn rule_of(strike: u32, sp: Steps, s: Strike) -> SpreadRule
    ensures { result ≡ rule_of strike sp s }
{
    if strike == 0 {
        return SpreadRule::Settled(sp);
    }
    SpreadRule::OfStrike(s)
}

// The milliseconds of each state, the number of stretches of one state, and the stretches. SP is in two's complement.
pub fn session_account(
    row: &[u32],
    strike: u32,
    sp: u32,
    a: u32,
    difference: u32,
    days: u32,
    b: u32,
    records: &[u8],
    buffer: &mut [u32],
) -> u64
    ensures { FillsAccount (account paper most_records row.now (rule_of strike (steps (signed_of sp)) (strike_of a difference days b)) records.now) buffer.old buffer.new result }
{
    let numbers = Strike {
        a,
        difference,
        days,
        b,
    };
    let price = words::to_steps(sp);
    let spread = rule_of(strike, price, numbers);
    if buffer.len() < 7 {
        return account_short(row, spread, records);
    }
    run_account(row, spread, records, buffer)
}
