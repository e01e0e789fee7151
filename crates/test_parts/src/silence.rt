//! Tests of a lease by echo: a control and its parent, by clocks in milliseconds. By hand, at a validity of 120 s and a grace of 150 s.

use pm_silence::{
    Beat, Beats, ChildPlace, ChildPlaces, ControlOrder, Hold, Listener, Silence, Word,
};
use std::process::Abort;

#[test]
fn a_control_holds_by_its_own_words(rt: HostRuntime) {
    let alloc = rt.alloc();
    let mut hold = Hold::start(6);
    assert!(rt; hold.word(1000) == None);
    hold.bid();
    let word = Word {
        number: 7,
        said: 1000,
    };
    assert!(rt; hold.word(1000) == Some(word));
    let mut listed = Vec::new(alloc);
    listed.push(ChildPlace::new(500)).expect(&rt, "memory");
    let mut places = ChildPlaces::new(listed);
    // The parent's clock has another zero. The word is news once.
    assert!(rt; places.hear(0, word, 900) && !places.hear(0, word, 9000));
    hold.take(word.answered(0).expect(&rt, "the clock has run"));
    assert!(rt; hold.holds(120_000, 120_999) && !hold.holds(120_000, 121_000));
    assert!(rt;
        places
            .due(alloc, 150_000, 150_899)
            .expect(&rt, "memory")
            .is_empty()
    );
    assert!(rt; places.tick(alloc, 150_000, 150_900).expect(&rt, "memory")[..] == [0]);
    assert!(rt;
        places
            .due(alloc, 150_000, 999_999)
            .expect(&rt, "memory")
            .is_empty()
    );
    // Who has left counts no more, and answers to what it said before do not count.
    assert!(rt; hold.leave() == 8);
    hold.take(word);
    assert!(rt; !hold.holds(120_000, 1001) && hold.used(1001) == 0);
    places.hear_leave(0, 8);
    assert!(rt; !places.hear(0, word, 151_000));
}

#[test]
fn a_control_is_told_by_both_rules(rt: HostRuntime) {
    let mut silence = Silence {
        hold: Hold::start(0),
        beats: Listener::begin(0),
    };
    silence.hold.bid();
    silence.take(Word {
        number: 1,
        said: 2000,
    });
    assert!(rt; silence.tick(120_000, 100_000) == ControlOrder::Holds { left: 20_000 });
    let mut beats = Beats::begin(3);
    let beat = beats.beat();
    assert!(rt; beat == Beat { start: 3, count: 1 });
    assert!(rt; silence.hear(beat, 100_000) && !silence.hear(beat, 101_000));
    assert!(rt; silence.tick(120_000, 101_000) == ControlOrder::Holds { left: 21_000 });
    assert!(rt; silence.tick(120_000, 122_000) == ControlOrder::FallBack);
    beats.learn(Beat { start: 4, count: 9 });
    assert!(rt; beats.beat() == Beat { start: 5, count: 1 });
}
