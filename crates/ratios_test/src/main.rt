// Worked lines of `ratios`, proved and run.
#![tactic(auto)]

use check::expect;
use ratios::{gcd, reduced};

fn main() {
    expect(gcd(12, 18) == 6);
    expect(gcd(18, 12) == 6);
    expect(gcd(9, 4) == 1);
    expect(gcd(0, 5) == 5);
    expect(gcd(5, 0) == 5);
    // The largest sum is 7,999,992, eight times 999,999: over four of these it is 2/1.
    let most = reduced(7999992, 3999996);
    expect(most.top == 2);
    expect(most.bottom == 1);
    // 0/5 is 0/1.
    let none = reduced(0, 5);
    expect(none.top == 0);
    expect(none.bottom == 1);
    let zero = reduced(0, 0);
    expect(zero.bottom == 0);
}
