//! One thread, with all pilots that it drives.
ghost use Rattle.std.specs.Prelude.{◌≡◌, All, List};
ghost use Rattle.std.specs.List.{AllZip};
ghost use Rattle.sift_workers.specs.Going.{IsHome, AtEachPlace};

use crate::pilot::{Bell, Pilot, Went};
use crossbeam_utils::Backoff;
use std::sync::Wait;
use std::sync::atomic::{AtomicBool, Ordering};

/// How many steps a pilot makes at most before the next pilot of its hand has its turn.
const STEPS: u32 = 256;

/// How often a thread looks again at pilots that all wait, before it sleeps.
const LOOKS: u32 = 10;

/// How often a thread sleeps in a row before it gives up: then nobody has moved for a second or more, as where another
/// thread couldn't be started.
const SLEEPS: u32 = 1000;

/// Steps a pilot until it waits, is home, or has made so many steps.
fn go_far<P: Pilot, B: Bell>(pilot: &mut P, bell: &B) -> Went
    requires { P.drives pilot.old }
    ensures drives { P.drives pilot.new }
    ensures comes { P.comes pilot.old pilot.new }
    ensures home { IsHome result → P.is_home pilot.new }
{
    let first = pilot.go(bell);
    if first != Went::Moved {
        return first;
    }
    for _ in 1..STEPS {
        if pilot.go(bell) != Went::Moved {
            break;
        }
    }
    Went::Moved
}

/// Steps the pilots of a hand in turn, each as far as it goes.
fn turn_each<P: Pilot, B: Bell>(hand: &mut [P], bell: &B) -> Went
    requires { All P.drives hand.old }
    ensures drives { All P.drives hand.new }
    ensures comes { AtEachPlace P.comes hand.old hand.new }
    ensures home { IsHome result → All P.is_home hand.new }
{
    let mut all = Went::Home;
    for pilot in hand.iter_mut() {
        all = all.and(go_far(pilot, bell));
    }
    all
}

/// How a thread waits: how often it has looked and slept since one of its pilots moved, and for how long it spins
/// before it looks again.
#[derive(Drop)]
struct Patience {
    looks: u32,
    sleeps: u32,
    wait: Backoff,
}

impl Patience {
    /// It hasn't waited yet.
    fn new() -> Patience {
        Patience {
            looks: 0,
            sleeps: 0,
            wait: Backoff::new(),
        }
    }

    /// Whether it has slept in vain for long.
    fn is_out(&self) -> bool {
        self.sleeps >= SLEEPS
    }

    /// Starts anew where a pilot moved. Where all wait, it spins for a moment; and once it has looked often enough, it
    /// sleeps until the unit for which it waits has got further. It never yields: beside other work a yield gives the
    /// processor away for milliseconds, and there is one for each subframe.
    fn pause<B: Bell, H: Wait>(&mut self, rt: &H, bell: &B, went: Went) {
        match went {
            Went::Moved | Went::Home => {
                self.looks = 0;
                self.sleeps = 0;
                self.wait.reset();
            }
            Went::Waits { unit, seen } => {
                if self.looks < LOOKS {
                    self.looks += 1;
                    self.wait.spin();
                } else {
                    self.sleeps = self.sleeps.saturating_add(1);
                    bell.sleep_while(rt, unit, seen);
                }
            }
        }
    }
}

/// Steps all pilots of a hand in turn until each is home, or the threads are to stop. A thread that has waited for long
/// has them all stop.
fn drive_on<P: Pilot, B: Bell, H: Wait>(rt: &H, hand: &mut [P], bell: &B, stop: &AtomicBool) -> Went
    requires { All P.drives hand.old }
    ensures drives { All P.drives hand.new }
    ensures comes { AtEachPlace P.comes hand.old hand.new }
    ensures home { IsHome result → All P.is_home hand.new }
{
    let mut patience = Patience::new();
    let mut went = turn_each(hand, bell);
    for _ in rt.forever() {
        if went == Went::Home || stop.load(Ordering::SeqCst) {
            break;
        }
        patience.pause(rt, bell, went);
        if patience.is_out() {
            stop.store(true, Ordering::SeqCst);
        }
        went = turn_each(hand, bell);
    }
    went
}

/// One thread's flight: all pilots of a hand are driven home, or as far as they come until the threads are to stop. It
/// may wait for those of other hands.
pub(crate) fn drive<P: Pilot, B: Bell, H: Wait>(
    rt: &H,
    hand: Vec<P>,
    bell: &B,
    stop: &AtomicBool,
) -> Vec<P>
    requires { All P.drives hand.items }
    ensures { AllZip (λ x y. P.comes x y × P.drives y) hand.items result.items }
{
    let mut hand = hand;
    drive_on(rt, hand.as_mut_slice(), bell, stop);
    hand
}

/// Steps all pilots in turn until each is home.
fn come_home<P: Pilot, B: Bell, H: Wait>(rt: &H, pilots: &mut [P], bell: &B)
    requires { All P.drives pilots.old }
    ensures comes { AtEachPlace P.comes pilots.old pilots.new }
    ensures home { All P.is_home pilots.new }
{
    let alone = AtomicBool::new(false);
    for _ in rt.forever() {
        if drive_on(rt, pilots, bell, &alone) == Went::Home {
            break;
        }
    }
}

/// Drives all pilots home on this thread, wherever they come from. Where they are home already, each says so.
pub(crate) fn drive_home<P: Pilot, B: Bell, H: Wait>(rt: &H, pilots: Vec<P>, bell: &B) -> Vec<P>
    requires { All P.drives pilots.items }
    ensures { (starts : List P) → AllZip (λ x y. P.comes x y × P.drives y) starts pilots.items
        → AllZip (λ x y. P.comes x y × P.is_home y) starts result.items }
{
    let mut pilots = pilots;
    come_home(rt, pilots.as_mut_slice(), bell);
    pilots
}
