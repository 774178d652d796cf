use std::test::Fail;
use sx_event::*;

// Two actors want bit 5 and 60 of a purse of 100. The first is first at both, and takes in the other.
#[test]
fn the_second_finds_what_the_first_left(rt: HostRuntime) -> Result<(), Fail> {
    let claim = Event::Claim { word: 0, bit: 5 };
    let look = Event::Look { purse: 0 };
    let take = Event::Take { purse: 0, need: 60 };
    // the actor, its event, what it is told, and the purse then
    let table = [
        (0, Event::Split { at: 1 }, Step::Made(1), 100),
        (0, claim, Step::Clear, 100),
        (1, claim, Step::Taken, 100),
        (0, look, Step::Seen(100), 100),
        (1, look, Step::Seen(100), 100),
        (0, take, Step::Won, 40),
        (1, take, Step::Lost(40), 40),
        (0, Event::Join { other: 1 }, Step::Joined, 40),
    ];
    let mut core = Core::start(rt.alloc(), &[100], &[1], 2, 1)?;
    core.reserve(9)?;
    for (actor, event, told, left) in table {
        assert!(rt; core.spare() >= 1 && core.allows(actor, event));
        assert_eq!(rt; core.step(actor, event), told);
        assert_eq!(rt; core.purses(), [left].as_slice());
    }
    assert_eq!(rt; core.bits(), [33].as_slice());
    assert_eq!(rt; core.spare(), 1);
    // The joined view saw 40 last, and the other one is spent.
    assert!(rt; !core.allows(0, take) && !core.allows(1, look));
    Ok(())
}
