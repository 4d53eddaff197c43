// The exported C functions: those of the crate capi, under their names. bindings/c/property_area.h declares them.
#![tactic(auto)]

ghost use Rattle.std.specs.Prelude.{◌≡◌};
ghost use Rattle.layout.specs.Refusals.{leaves};
ghost use Rattle.property_area.specs.Find.{find_steps};
ghost use Rattle.property_area.specs.Value.{value_steps, name_steps, serial_steps};
ghost use Rattle.property_area.specs.Backup.{backup_steps};
ghost use Rattle.allocation.specs.Steps.{outcome};
ghost use Rattle.builder.specs.Fresh.{format_steps};
ghost use Rattle.builder.specs.Add.{add_steps};
ghost use Rattle.updates.specs.Update.{update_steps, raw_steps};
ghost use Rattle.counters.specs.Distance.{distance};
ghost use Rattle.capi.specs.Capi.{found_struct, part_struct, serial_struct, CheckReturns, ListReturns, DumpReturns};

use capi::{PaCount, PaFound, PaPart, PaSerial};

#[unsafe(no_mangle)]
pub extern "C" fn pa_format(area: &mut [u8]) -> u32
    ensures { leaves result area.new ≡ format_steps area.old }
{
    capi::pa_format(area)
}

#[unsafe(no_mangle)]
pub extern "C" fn pa_find(area: &[u8], name: &[u8]) -> PaFound
    ensures { result ≡ found_struct (find_steps area.now name.now) }
{
    capi::pa_find(area, name)
}

#[unsafe(no_mangle)]
pub extern "C" fn pa_value(area: &[u8], entry: u32) -> PaPart
    ensures { result ≡ part_struct (value_steps area.now entry) }
{
    capi::pa_value(area, entry)
}

#[unsafe(no_mangle)]
pub extern "C" fn pa_name(area: &[u8], entry: u32) -> PaPart
    ensures { result ≡ part_struct (name_steps area.now entry) }
{
    capi::pa_name(area, entry)
}

#[unsafe(no_mangle)]
pub extern "C" fn pa_serial(area: &[u8], entry: u32) -> PaSerial
    ensures { result ≡ serial_struct (serial_steps area.now entry) }
{
    capi::pa_serial(area, entry)
}

#[unsafe(no_mangle)]
pub extern "C" fn pa_add(area: &mut [u8], name: &[u8], value: &[u8]) -> u32
    ensures { leaves result area.new ≡ outcome (add_steps area.old name.now value.now) }
{
    capi::pa_add(area, name, value)
}

#[unsafe(no_mangle)]
pub extern "C" fn pa_update(area: &mut [u8], name: &[u8], value: &[u8]) -> u32
    ensures { leaves result area.new ≡ update_steps area.old name.now value.now }
{
    capi::pa_update(area, name, value)
}

#[unsafe(no_mangle)]
pub extern "C" fn pa_raw_update(area: &mut [u8], entry: u32, backup: &[u8], value: &[u8]) -> u32
    ensures { leaves result area.new ≡ raw_steps area.old entry backup.now value.now }
{
    capi::pa_raw_update(area, entry, backup, value)
}

#[unsafe(no_mangle)]
pub extern "C" fn pa_backup_read(area: &[u8], buffer: &mut [u8]) -> u32
    ensures { leaves result buffer.new ≡ backup_steps area.now buffer.old }
{
    capi::pa_backup_read(area, buffer)
}

#[unsafe(no_mangle)]
pub extern "C" fn pa_check(area: &[u8], scratch: &mut [u8]) -> u32
    ensures { CheckReturns area.now scratch.old result scratch.new }
{
    capi::pa_check(area, scratch)
}

#[unsafe(no_mangle)]
pub extern "C" fn pa_list(area: &[u8], scratch: &mut [u8], list: &mut [u32]) -> PaCount
    ensures { ListReturns area.now scratch.old list.old result scratch.new list.new }
{
    capi::pa_list(area, scratch, list)
}

#[unsafe(no_mangle)]
pub extern "C" fn pa_dump(
    area: &[u8],
    scratch: &mut [u8],
    list: &mut [u32],
    room: &mut [u8],
) -> PaCount
    ensures { DumpReturns area.now scratch.old list.old room.old result room.new scratch.new list.new }
{
    capi::pa_dump(area, scratch, list, room)
}

#[unsafe(no_mangle)]
pub extern "C" fn pa_update_distance(earlier: u32, later: u32) -> u32
    ensures { result ≡ distance earlier later }
{
    capi::pa_update_distance(earlier, later)
}
