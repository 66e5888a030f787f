// How a caller makes a count and hands it down.
ghost use Rattle.std.specs.Prelude.{◌≡◌, ◌+◌, ◌<◌, length};

use super::*;
use std::marker::Brand;
use std::mem::size_of;
use std::test::Fail;

/// The sum of the bytes, one step for each.
fn sum_of<L: Ledger>(bytes: &[u8], steps: &mut Steps<L>) -> u64
    ensures { steps.new ≡ steps.old + length bytes.now }
{
    let mut sum: u64 = 0;
    'bytes: for byte in bytes {
        sum = sum.wrapping_add(u64::from(*byte));
        steps.tick();
    }
    sum
}

/// Makes a count and hands it down.
fn counted<L: Ledger>(bytes: &[u8], blank: Blank) -> u64
    requires name { blank.name ≡ L.name }
    requires parts { blank.parts ≡ L.parts }
    requires some { 0 < blank.parts }
{
    let mut steps = Steps::<L>::new(blank);
    sum_of(bytes, &mut steps)
}

#[test]
fn counts_each_byte(rt: HostRuntime) -> Result<(), Fail> {
    assert!(rt; counted::<Brand>(b"abc", Blank::new(1)) == 294);
    assert!(rt; size_of::<Steps<Brand>>() == 0);
    Ok(())
}
