// The C call that makes one call on a month, in an archive of its own: here the compiler finds one caller of what it runs, and inlines it.
#![tactic(auto)]

ghost use Rattle.std.specs.Prelude.{◌≡◌, true, ◌≤◌, length};
ghost use Rattle.month.specs.Words.{HoldsMonth};
ghost use Rattle.month_in_place.specs.Entry.{may_be_month};
ghost use Rattle.c_month.specs.Months.{CallsMonth};

// One call on the month whose words these are.
#[unsafe(no_mangle)]
pub extern "C" fn quoting_month_call(
    words: &mut [u32],
    hints: &mut [u8],
    call: &[u8],
    answer: &mut [u32],
) -> u64
    requires { 2464 ≤ length words.old → may_be_month words.old ≡ true → HoldsMonth words.old }
    ensures { CallsMonth words.old hints.old answer.old call.now words.new hints.new answer.new result }
{
    c_month::call(words, hints, call, answer)
}
