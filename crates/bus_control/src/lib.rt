// The control byte: what it asks for, of every slot and of an older module. Which slot then acknowledges is the slot's matter.
#![tactic(auto)]

ghost use Rattle.std.specs.Prelude.{◌≡◌};
ghost use Rattle.bus_control.specs.Rows.{found_in};
ghost use Rattle.rules.specs.Control.{select_of, is_read, heard_of, command_of, raised_command, own_command, older_command, heard_by};

use rules::{BlockNo, Heard, Slot, SlotNo};

// A row of the table of commands: the control byte, and what it asks for.
#[derive(Clone, Copy)]
struct Row(u8, Heard);

// How many commands the family 0110 has.
const ROWS: usize = 12;

// The commands of the family 0110, row by row as the datasheets have them (source document 000: Table 6-1, and for the page address 5.1.1 and
// 5.1.2; 003: Table 7-3, 7.1.1 and 7.1.2): the byte in bits, 7:4 the family, 3:1 the identifier, 0 the read bit; the command; its block or half.
// Above the rows of a command stand the datasheets' name for it and document 01's bytes.
const COMMANDS: [Row; ROWS] = [
    // Set Write Protection, Block 0 to 3: 62h 68h 6Ah 60h
    Row(0b0110_001_0, Heard::Protect(BlockNo(0))),
    Row(0b0110_100_0, Heard::Protect(BlockNo(1))),
    Row(0b0110_101_0, Heard::Protect(BlockNo(2))),
    Row(0b0110_000_0, Heard::Protect(BlockNo(3))),
    // Clear All Write Protection: 66h
    Row(0b0110_011_0, Heard::ClearAll),
    // Read Protection Status, Block 0 to 3: 63h 69h 6Bh 61h
    Row(0b0110_001_1, Heard::ReadProtection(BlockNo(0))),
    Row(0b0110_100_1, Heard::ReadProtection(BlockNo(1))),
    Row(0b0110_101_1, Heard::ReadProtection(BlockNo(2))),
    Row(0b0110_000_1, Heard::ReadProtection(BlockNo(3))),
    // Set Page Address, 0 and 1: 6Ch 6Eh
    Row(0b0110_110_0, Heard::SelectHalf(0)),
    Row(0b0110_111_0, Heard::SelectHalf(1)),
    // Read Page Address: 6Dh
    Row(0b0110_110_1, Heard::ReadHalf),
];

// What a table says of a byte: what its first row with that byte asks for, and nothing where it has no such row.
fn look_up(rows: &[Row], b: u8) -> Heard
    ensures { result ≡ found_in rows.now b }
{
    rows.iter()
        .find(|row| row.0 == b)
        .map_or(Heard::Nothing, |row| row.1)
}

// The command of a control byte, by the table.
#[tactic(auto, unfolding(rules::specs::Control::command_of))]
fn command(b: u8) -> Heard
    ensures { result ≡ command_of b }
{
    look_up(&COMMANDS, b)
}

// Its select bits, 3:1, and its read bit, 0.
#[tactic(auto, unfolding(rules::specs::Control::select_of))]
fn select(b: u8) -> SlotNo
    ensures { result ≡ select_of b }
{
    SlotNo(b / 2 % 8)
}

#[tactic(auto, unfolding(rules::specs::Control::is_read))]
fn is_read(b: u8) -> bool
    ensures { result ≡ is_read b }
{
    b % 2 == 1
}

// What a control byte asks for: the families 1010, 0011 and 0110 by their ranges, the commands of 0110 by the table.
#[tactic(auto, unfolding(rules::specs::Control::heard_of))]
pub fn hear(b: u8) -> Heard
    ensures { result ≡ heard_of b }
{
    match b {
        0xA0..=0xAF => Heard::Memory {
            select: select(b),
            read: is_read(b),
        },
        0x30..=0x3F => Heard::Sensor {
            select: select(b),
            read: is_read(b),
        },
        0x60..=0x6F => command(b),
        _ => Heard::Nothing,
    }
}

// The commands of an older module with high voltage on (source document 002): 62h protects, 66h clears, and with the read bit both ask whether its
// one block is protected.
#[tactic(auto, unfolding(rules::specs::Control::raised_command))]
fn raised(b: u8) -> Heard
    ensures { result ≡ raised_command b }
{
    match b {
        0x62 => Heard::Protect(BlockNo(0)),
        0x66 => Heard::ClearAll,
        0x63 | 0x67 => Heard::ReadProtection(BlockNo(0)),
        _ => Heard::Nothing,
    }
}

// With it off the slot's select number protects for ever, and with the read bit asks the same.
#[tactic(auto, unfolding(rules::specs::Control::own_command))]
fn own(n: SlotNo, b: u8) -> Heard
    ensures { result ≡ own_command n.0 b }
{
    if select(b) != n {
        Heard::Nothing
    } else if is_read(b) {
        Heard::ReadProtection(BlockNo(0))
    } else {
        Heard::ProtectForEver
    }
}

// What a byte of the family 0110 asks of an older module in slot n: by the voltage at this byte, and nothing once its protection is permanent.
#[tactic(auto, unfolding(rules::specs::Control::older_command))]
fn older_command(n: SlotNo, b: u8, s: Slot) -> Heard
    ensures { result ≡ older_command n.0 b s }
{
    if s.old.permanent {
        Heard::Nothing
    } else if s.voltage {
        raised(b)
    } else {
        own(n, b)
    }
}

// What a control byte asks of slot n; h is what it asks for by document 01, which holds for all but the 0110 bytes of an older module.
// Kept: h with its fact, and n, b and s, as Control.heard_by takes them: a Line has h of an act of any kind, and only some acts have a byte.
#[tactic(auto, unfolding(rules::specs::Control::heard_by, rules::specs::Modelled::older))]
pub fn heard_by(h: Heard, n: SlotNo, b: u8, s: Slot) -> Heard
    requires { h ≡ heard_of b }
    ensures { result ≡ heard_by n.0 b s }
{
    if s.is_older() & (b / 16 == 6) {
        older_command(n, b, s)
    } else {
        h
    }
}
