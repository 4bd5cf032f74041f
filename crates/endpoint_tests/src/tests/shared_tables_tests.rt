//! Both bodies of the trait side by side, over a sequence of calls; and the bucket of an address in a segment.
ghost use Rattle.std.specs.Prelude.{◌≡◌, [], ◌∷◌};
ghost use Rattle.shared_tables.specs.Bucket.{bucket_of};

use crate::tests::calls::{Course, agree, opened};
use crate::tests::checks::check_at;
use std::test::Fail;
use wire::ether::Vid;

/// Two segments' addresses have one bucket, by hand: 512 + 0 + 1 + 10 and 512 + 0 + 2 + 9, below 4,096.
fn one_bucket()
    ensures ten { bucket_of 10 (2 ∷ 0 ∷ 0 ∷ 0 ∷ 0 ∷ 1 ∷ []) ≡ 523 }
    ensures nine { bucket_of 9 (2 ∷ 0 ∷ 0 ∷ 0 ∷ 0 ∷ 2 ∷ []) ≡ 523 }
{}

#[test]
fn two_segments_share_a_bucket() {
    one_bucket();
}

#[test]
fn answers_as_a_list_for_each_segment(rt: HostRuntime) -> Result<(), Fail> {
    let nine = Vid::new(9).ok_or("VID 9")?;
    let ten = Vid::new(10).ok_or("VID 10")?;
    let (mut lists, mut shared) = opened(rt.alloc(), (7, 10), (10, 20))?;
    let mut course = Course::new();
    for number in 0..10_000 {
        course.go_on();
        let vid = if course.quarter() % 2 == 0 { nine } else { ten };
        let holds = agree(&mut lists, &mut shared, vid, course.now, course.call());
        check_at(&rt, holds, "call", number);
    }
    Ok(())
}
