//! Rows of the region of words.

ghost use Rattle.std.specs.Prelude.{◌≡◌};
ghost use Rattle.sift_pool.specs.Region.{IsLive};

use sift_pool::{Full, NoMemory, Pool, Span};
use std::alloc::Global;
use std::process::Abort;

#[test]
fn what_is_released_is_carved_again(rt: HostRuntime) {
    let mut pool = Pool::make(rt.alloc(), 10, 2).expect(&rt, "a pool");
    let mark = pool.mark();
    let first = pool.carve(6).expect(&rt, "six words");
    assert!(rt; pool.live(&first));
    let too_long = pool.carve(5).err();
    assert_eq!(rt; too_long, Some(Full { left: 4 }));
    pool.release(mark);
    assert!(rt; !pool.live(&first));
    let all = pool.carve(10).expect(&rt, "all words");
    assert!(rt; pool.live(&all));
    assert_eq!(rt; pool.count(), 1);
}

#[test]
fn a_pool_too_large_for_memory_is_not_made(rt: HostRuntime) {
    for (words, spans) in [(usize::MAX, 1), (1, usize::MAX), (1 << 62, 1), (1, 1 << 59)] {
        let made = Pool::make(rt.alloc(), words, spans).err();
        assert_eq!(rt; made, Some(NoMemory));
    }
}

/// The words of a span of two.
fn pair(pool: &Pool, span: &Span) -> [u16; 2]
    requires live { IsLive pool.now span.now }
    requires two { span.now.len ≡ 2 }
{
    [pool.get(span, 0), pool.get(span, 1)]
}

#[test]
fn a_write_changes_one_word_of_one_span(rt: HostRuntime) {
    let mut pool = Pool::make(rt.alloc(), 6, 3).expect(&rt, "a pool");
    let left = pool.carve(2).expect(&rt, "two words");
    pool.fill(&left, 1);
    let middle = pool.carve(2).expect(&rt, "two words");
    pool.fill(&middle, 2);
    let right = pool.carve(2).expect(&rt, "two words");
    pool.put(&middle, 1, 9);
    let words = [
        pair(&pool, &left),
        pair(&pool, &middle),
        pair(&pool, &right),
    ];
    assert_eq!(rt; words, [[1, 1], [2, 9], [0, 0]]);
}

/// Whether a span of one size is live again, once it was released and one of another size was carved.
fn lives_again(rt: &impl Abort, alloc: Global, size: usize, other: usize) -> bool {
    let mut pool = Pool::make(alloc, 8, 2).expect(rt, "a pool");
    let mark = pool.mark();
    let released = pool.carve(size).expect(rt, "a span");
    pool.release(mark);
    let _carved = pool.carve(other).expect(rt, "a span again");
    pool.live(&released)
}

#[test]
fn a_span_carved_again_is_live_again(rt: HostRuntime) {
    for (size, other) in [(3, 3), (0, 0), (6, 6)] {
        assert!(rt; lives_again(&rt, rt.alloc(), size, other));
    }
    for (size, other) in [(3, 2), (3, 4), (6, 0)] {
        assert!(rt; !lives_again(&rt, rt.alloc(), size, other));
    }
}
