// Worked lines of `bits`, proved and run.
#![tactic(auto)]

use bits::{put_bit, set_bit, test_bit};
use check::expect;

fn main() {
    expect(test_bit(5, 2));
    expect(test_bit(5, 1) == false);
    expect(test_bit(9223372036854775808, 63));
    expect(test_bit(18446744073709551615, 64) == false);
    expect(set_bit(5, 1) == 7);
    expect(set_bit(0, 63) == 9223372036854775808);
    expect(set_bit(5, 64) == 5);
    expect(put_bit(4, 0, true) == 5);
    expect(put_bit(5, 0, false) == 5);
}
