// Waits a hundredth of a second: a program that asks again and again for something that is not there yet calls this between
// two questions, so that it does not keep a processor busy. A signal does not cut the wait short.
#![tactic(auto)]

use std::rt::Clock;
use std::thread;
use std::time::Duration;

pub fn pause(clock: &impl Clock) {
    thread::sleep(clock, Duration::from_millis(10));
}
