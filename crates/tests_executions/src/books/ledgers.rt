//! A ledger that closes with the posts of its lanes.
ghost use Rattle.std.specs.Prelude.{◌≡◌};

use std::alloc::Global;
use std::marker::Brand;
use std::process::Abort;
use std::sync::ledger::Blank;
use unit_ledger::{PostLedger, close, open, post};

/// Three posts of lane 0 and two of lane 1, in turn.
fn five_posts<Q: PostLedger>(rt: &impl Abort, blank: Blank, alloc: Global) -> u64
    requires name { blank.name ≡ Q.name }
    requires parts { blank.parts ≡ Q.parts }
    requires two { blank.parts ≡ 2 }
{
    let (mut book, mut seats) = open::<Q>(blank, alloc, 2).expect(rt, "there is memory");
    let mut first = seats.lift(0);
    let mut second = seats.lift(1);
    assert!(rt; (first.lane(), first.posted()) == (0, 0));
    assert!(rt; (second.lane(), second.posted()) == (1, 0));
    post(&mut book, &mut first);
    post(&mut book, &mut second);
    post(&mut book, &mut first);
    post(&mut book, &mut second);
    post(&mut book, &mut first);
    assert!(rt; (first.posted(), second.posted(), book.posted()) == (3, 2, 5));
    seats.lay(first);
    seats.lay(second);
    close(book, seats).number()
}

#[test]
fn closes_with_all_posts(rt: HostRuntime) {
    let posts = five_posts::<Brand>(&rt, Blank::new(2), rt.alloc());
    assert!(rt; posts == 5);
}
