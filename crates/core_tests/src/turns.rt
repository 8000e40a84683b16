// Two passes of one turn raise the commits of a value to 3 and then to 5.
use std::test::Fail;
use worker_turn::tally::{Tally, raise};
use worker_turn::{Turn, made, seen, shares};

#[test]
fn two_passes_raise_the_commits(rt: HostRuntime) -> Result<(), Fail> {
    let tally = Tally {
        commits: 0,
        owner: 7,
    };
    let Ok((turn, mut first)) = Turn::make(rt.alloc(), tally, 2) else {
        panic!(&rt; "memory")
    };
    let mut guard = turn.enter(&rt, &mut first);
    assert_eq!(rt; guard.value().commits, 0);
    guard.value_mut().commits = 3;
    turn.leave(&mut first, guard);
    let Ok(mut second) = turn.split(&mut first) else {
        panic!(&rt; "memory")
    };
    let mut guard = turn.enter(&rt, &mut second);
    assert_eq!(rt; guard.value().commits, 3);
    guard.value_mut().commits = 5;
    turn.leave(&mut second, guard);
    assert_eq!(rt; (seen(&first), seen(&second)), (3, 5));
    assert_eq!(rt; (made(&first), made(&second)), (3, 2));
    assert_eq!(rt; (shares(&first), shares(&second)), (1, 1));
    turn.join(&mut first, second);
    assert_eq!(rt; (seen(&first), made(&first), shares(&first)), (5, 5, 2));
    assert!(rt; !raise(&rt, &turn, &mut first, u64::MAX));
    let tally = turn.close(first);
    assert_eq!(rt; (tally.commits, tally.owner), (5, 7));
    Ok(())
}
