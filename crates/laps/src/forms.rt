// Laps of saving, reading and copying: savings (`s`) of a bench with eight slots of kind 2, restorings of its form (`r`), or copies of as many
// bytes (`c`). Each lap counts one byte up, and `done` is written only where that byte has counted the laps, and out of the room that they have
// filled.
ghost use Rattle.std.specs.Prelude.{◌≤◌, length};

use super::{STDERR, STDOUT};
use rules::{Bus, Pair};

// Bytes of the bench's form.
const FORM: usize = 4276;

// The place in it of the first byte of memory: behind the head and the contents of the setup, and the memory's head.
const FIRST: usize = 22;

// And that of slot 0's counter: behind the contents of the memory, the head of the states, and two of their bytes.
const COUNTER: usize = 4123;

// A byte counted up, round and round.
fn up(b: u8) -> u8 {
    b.wrapping_add(1)
}

// A bus with another counter of slot 0.
fn counted(mut bus: Bus, counter: u8) -> Bus {
    bus.slots[0].counter = counter;
    bus
}

// Kept: a byte that each lap hands on, and no Result of a lap: that it has counted them all is what shows that the compiler has left none out.
// So many laps, and whether the byte that each has counted up has counted them, from FFh on.
fn laps<F: FnMut() -> u8>(count: u64, mut lap: F) -> bool
    requires { F.IsAlwaysCallable lap }
{
    let mut last = 0xFF;
    for _ in 0..count {
        last = lap();
    }
    u64::from(up(last)) == count % 256
}

// The end of some laps: where the byte has counted them, `done` is put into the room that they have filled, and written out of it. Whoever writes may
// look at all of a room, so the laps have to fill all of it.
fn finish(right: bool, room: &mut [u8])
    requires { 5 ≤ length room.old }
{
    if !right {
        io::write_all(STDERR, b"laps: a lap was lost\n");
        return;
    }
    room[..5].copy_from_slice(b"done\n");
    io::write_all(STDOUT, &room[..5]);
}

// A bench, its memory, and its form, which has been saved once.
fn bench() -> (Bus, [u8; 4096], [u8; FORM]) {
    let made = bus_setup::setup([Pair { kind: 2, length: 5 }; 8]);
    let mem = [0xFFu8; 4096];
    let mut form = [0u8; FORM];
    let _ = save_entry::save(made.bus, &mem, &mut form);
    (made.bus, mem, form)
}

// So many savings. The first byte of memory and a counter go into the form, and from there, counted up, into memory and bus again.
pub fn save(count: u64) {
    let (mut bus, mut mem, mut form) = bench();
    let right = laps(count, || {
        let _ = save_entry::save(bus, &mem, &mut form);
        mem[0] = up(form[FIRST]);
        bus = counted(bus, up(form[COUNTER]));
        mem[0]
    });
    finish(right, &mut form);
}

// So many restorings, the other way round.
pub fn restore(count: u64) {
    let (mut bus, mut mem, mut form) = bench();
    let right = laps(count, || {
        bus = save_restore::restore(bus, &mut mem, &form).bus;
        form[FIRST] = up(mem[0]);
        form[COUNTER] = up(bus.slots[0].counter);
        form[FIRST]
    });
    finish(right, &mut mem);
}

// So many copies of as many bytes.
pub fn copy(count: u64) {
    let (_, _, mut from) = bench();
    let mut to = [0u8; FORM];
    let right = laps(count, || {
        to.copy_from_slice(&from);
        from[FIRST] = up(to[FIRST]);
        from[FIRST]
    });
    finish(right, &mut to);
}
