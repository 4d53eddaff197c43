// The C functions, and C's structs. The crate capi_c exports them; bindings/c/property_area.h declares them.
#![tactic(auto)]

ghost use Rattle.std.specs.Prelude.{ℕ, ◌≡◌};
ghost use Rattle.layout.specs.Refusals.{answered, leaves};
ghost use Rattle.property_area.specs.Find.{find_steps};
ghost use Rattle.property_area.specs.Value.{part_answer, value_steps, name_steps, serial_steps};
ghost use Rattle.property_area.specs.Backup.{backup_steps};
ghost use Rattle.allocation.specs.Steps.{outcome};
ghost use Rattle.builder.specs.Fresh.{format_steps};
ghost use Rattle.builder.specs.Add.{add_steps};
ghost use Rattle.updates.specs.Update.{update_steps, raw_steps};
ghost use Rattle.counters.specs.Distance.{distance};
ghost use Rattle.capi.specs.Capi.{found_struct, part_struct, serial_struct, count_struct, CheckReturns, ListReturns, DumpReturns};
ghost use Rattle.capi.specs.View.{PartFits, CountFits};

use layout::{Refusal, Span, verdict_number};
use property_area::Found;

// C has no result type, so each struct has the refusal's number beside the value.

// Refusal 0: found. Where refused the rest is 0.
#[repr(C)]
#[derive(Clone, Copy)]
pub struct PaFound {
    pub refusal: u32,
    pub entry: u32,
    pub compared: u64,
}

// Refusal 0: the value, or the name, is area[start .. start + length]. Where refused the rest is 0.
#[repr(C)]
#[derive(Clone, Copy)]
pub struct PaPart {
    pub refusal: u32,
    pub start: u32,
    pub length: u64,
}

// Refusal 0: the serial. Where refused it is 0.
#[repr(C)]
#[derive(Clone, Copy)]
pub struct PaSerial {
    pub refusal: u32,
    pub serial: u32,
}

// Refusal 0: so many entries, or bytes of text. Where refused the count is 0.
#[repr(C)]
#[derive(Clone, Copy)]
pub struct PaCount {
    pub refusal: u32,
    pub count: u32,
}

pub fn pa_format(area: &mut [u8]) -> u32
    ensures { leaves result area.new ≡ format_steps area.old }
{
    verdict_number(builder::format(area))
}

pub fn pa_find(area: &[u8], name: &[u8]) -> PaFound
    ensures { result ≡ found_struct (find_steps area.now name.now) }
{
    match property_area::find(area, name) {
        Ok(Found { offset, compared }) => PaFound {
            refusal: 0,
            entry: offset,
            compared: compared as u64,
        },
        Err(why) => PaFound {
            refusal: why.number(),
            entry: 0,
            compared: 0,
        },
    }
}

// The struct of a part. A `From` could not ask that the part fits.
fn part_of(place: Result<Span, Refusal>) -> PaPart
    requires { PartFits place }
    ensures { result ≡ part_struct (part_answer place) }
{
    match place {
        Ok(Span { from, to }) => PaPart {
            refusal: 0,
            start: from as u32,
            length: (to - from) as u64,
        },
        Err(why) => PaPart {
            refusal: why.number(),
            start: 0,
            length: 0,
        },
    }
}

pub fn pa_value(area: &[u8], entry: u32) -> PaPart
    ensures { result ≡ part_struct (value_steps area.now entry) }
{
    part_of(property_area::value(area, entry))
}

pub fn pa_name(area: &[u8], entry: u32) -> PaPart
    ensures { result ≡ part_struct (name_steps area.now entry) }
{
    part_of(property_area::name(area, entry))
}

pub fn pa_serial(area: &[u8], entry: u32) -> PaSerial
    ensures { result ≡ serial_struct (serial_steps area.now entry) }
{
    match property_area::serial(area, entry) {
        Ok(serial) => PaSerial { refusal: 0, serial },
        Err(why) => PaSerial {
            refusal: why.number(),
            serial: 0,
        },
    }
}

pub fn pa_add(area: &mut [u8], name: &[u8], value: &[u8]) -> u32
    ensures { leaves result area.new ≡ outcome (add_steps area.old name.now value.now) }
{
    verdict_number(builder::add(area, name, value))
}

pub fn pa_update(area: &mut [u8], name: &[u8], value: &[u8]) -> u32
    ensures { leaves result area.new ≡ update_steps area.old name.now value.now }
{
    verdict_number(updates::update(area, name, value))
}

pub fn pa_raw_update(area: &mut [u8], entry: u32, backup: &[u8], value: &[u8]) -> u32
    ensures { leaves result area.new ≡ raw_steps area.old entry backup.now value.now }
{
    verdict_number(updates::backup_and_apply_write(area, entry, backup, value))
}

pub fn pa_backup_read(area: &[u8], buffer: &mut [u8]) -> u32
    ensures { leaves result buffer.new ≡ backup_steps area.now buffer.old }
{
    verdict_number(property_area::read_dirty_backup(area, buffer))
}

pub fn pa_check(area: &[u8], scratch: &mut [u8]) -> u32
    ensures { CheckReturns area.now scratch.old result scratch.new }
{
    verdict_number(audit::check(area, scratch))
}

// The struct of a count. No `From`, as above.
fn count_of(counted: Result<usize, Refusal>) -> PaCount
    requires { CountFits counted }
    ensures { result ≡ count_struct (answered (λ (count : ℕ). count) counted) }
{
    match counted {
        Ok(count) => PaCount {
            refusal: 0,
            count: count as u32,
        },
        Err(why) => PaCount {
            refusal: why.number(),
            count: 0,
        },
    }
}

pub fn pa_list(area: &[u8], scratch: &mut [u8], list: &mut [u32]) -> PaCount
    ensures { ListReturns area.now scratch.old list.old result scratch.new list.new }
{
    count_of(audit::list(area, scratch, list))
}

pub fn pa_dump(area: &[u8], scratch: &mut [u8], list: &mut [u32], room: &mut [u8]) -> PaCount
    ensures { DumpReturns area.now scratch.old list.old room.old result room.new scratch.new list.new }
{
    count_of(dumping::dump_into(area, scratch, list, room))
}

pub fn pa_update_distance(earlier: u32, later: u32) -> u32
    ensures { result ≡ distance earlier later }
{
    counters::update_distance(earlier, later)
}
