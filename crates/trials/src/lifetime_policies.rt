//! Lifetime policies: the fixed one and the learner.
use lifetimes::fixed::Fixed;
use lifetimes::learner::Learner;
use lifetimes::policy::{Event, LifetimePolicy};

#[test]
fn a_lifetime_ends_at_4096(rt: HostRuntime) {
    assert_eq!(rt; Fixed::new(10).lifetime(), 10);
    assert_eq!(rt; Fixed::new(4096).lifetime(), 4096);
    assert_eq!(rt; Fixed::new(4097).lifetime(), 4096);
}

#[test]
fn events_change_nothing(rt: HostRuntime) {
    let mut policy = Fixed::new(10);
    for event in [
        Event::LoadMetOver,
        Event::WriteMetRunning,
        Event::LeftRunning,
    ] {
        policy.tell(event);
    }
    assert_eq!(rt; policy.lifetime(), 10);
}

#[test]
fn a_start_is_cut_to_the_longest(rt: HostRuntime) {
    assert_eq!(rt; Learner::new(10, 20).lifetime(), 10);
    assert_eq!(rt; Learner::new(21, 20).lifetime(), 20);
    assert_eq!(rt; Learner::new(5000, 5000).lifetime(), 4096);
    assert_eq!(rt; Learner::new(5, 0).lifetime(), 0);
}

#[test]
fn a_learner_stays_between_0_and_its_longest(rt: HostRuntime) {
    let mut policy = Learner::new(3, 10);
    for (event, lifetime) in [
        (Event::WriteMetRunning, 0),
        (Event::LeftRunning, 0),
        (Event::LoadMetOver, 4),
        (Event::LoadMetOver, 8),
        (Event::LoadMetOver, 10),
        (Event::LeftRunning, 2),
    ] {
        policy.tell(event);
        assert_eq!(rt; policy.lifetime(), lifetime);
    }
}
