//! The files of a command.
ghost use Rattle.std.specs.Prelude.{◌-◌, ◌<◌, ◌^◌, Ok, Err, IfOk, IfErr};
ghost use Rattle.poet_cli.specs.Readings.{shelf_at, IsFileReading};
ghost use Rattle.poet_cli.specs.Steps.{ReadsSheet};

use poet_io::{ReadRefusal, Shelf, read_whole};
use poet_text::{Refusal, Source};
use sheet_text::read_sheet;
use std::alloc::Global;
use task_sheet::{Sheet, SheetRefusal};

/// The bytes of one file, within the limit of its kind.
pub fn read_file<H: Shelf>(
    alloc: Global,
    shelf: &mut H,
    name: &str,
    source: Source,
) -> Result<Vec<u8>, Refusal>
    ensures read { IfOk result (λ bytes. IsFileReading source name.now
        (shelf_at H.files H.faults H.is_open H.log shelf.old)
        (shelf_at H.files H.faults H.is_open H.log shelf.new) (Ok bytes.items)) }
    ensures stopped { IfErr result (λ refusal. IsFileReading source name.now
        (shelf_at H.files H.faults H.is_open H.log shelf.old)
        (shelf_at H.files H.faults H.is_open H.log shelf.new) (Err refusal)) }
{
    match read_whole(alloc, shelf, name, source.limit()) {
        Ok(bytes) => Ok(bytes),
        Err(ReadRefusal::Fault | ReadRefusal::Absent) => Err(Refusal::Read(source)),
        Err(ReadRefusal::TooLong) => Err(Refusal::Limit(source)),
        Err(ReadRefusal::Memory) => Err(Refusal::Memory),
    }
}

/// The sheet of a file.
pub fn sheet_at<H: Shelf>(alloc: Global, shelf: &mut H, name: &str) -> Result<Sheet, Refusal>
    ensures { ReadsSheet name.now
        (shelf_at H.files H.faults H.is_open H.log shelf.old)
        (shelf_at H.files H.faults H.is_open H.log shelf.new) result }
{
    let bytes = read_file(alloc, shelf, name, Source::Sheet)?;
    match read_sheet(alloc, &bytes) {
        Ok(sheet) => Ok(sheet),
        Err(SheetRefusal::Memory) => Err(Refusal::Memory),
        Err(refusal) => Err(Refusal::Sheet(refusal)),
    }
}
