//! In which parts an image is offered to a writer, and a writer that fails.
use crate::asserts::assert_same;
use crate::copies::ComparingWriter;
use elf_field::Order;
use elf_image_stream::{Fault, WriteFault};
use elf_image_type::{Image, parse, write};
use std::alloc::Global;
use std::process::Abort;
use tests_files::{OnceFailingWriter, long_parts, one_section};

/// A writer that takes all is offered parts of these lengths, and then has these bytes.
fn assert_offers(
    rt: &impl Abort,
    alloc: Global,
    image: &Image<'_>,
    bytes: &[u8],
    offers: &[usize],
) {
    let mut writer = OnceFailingWriter::new(alloc, usize::MAX, 0);
    let answer = write(image, &mut writer);
    let is_written = writer.bytes.as_slice() == bytes;
    assert_same(
        rt,
        (answer, is_written, writer.offers.as_slice(), writer.flushes),
        (Ok(()), true, offers, 0),
    );
}

/// The file of long parts, with zeros in its gap.
fn zeroed_parts() -> [u8; 18192] {
    let mut file = long_parts();
    file[192..9192].fill(0);
    file
}

// Contents and gaps are offered whole, zeros in blocks.
#[test]
fn parts_are_offered(rt: HostRuntime) -> Result<(), Fault> {
    let file = long_parts();
    let mut image = parse(rt.alloc(), &file)?;
    assert_offers(&rt, rt.alloc(), &image, &file, &[64, 128, 9000, 9000]);
    image.zero_gaps();
    let offers = [64, 128, 4096, 4096, 808, 9000];
    assert_offers(&rt, rt.alloc(), &image, &zeroed_parts(), &offers);
    Ok(())
}

/// What an image answers that is written to a writer which fails after so many of these bytes, and whether exactly these are written.
fn failed_after(image: &Image<'_>, front: &[u8]) -> (Result<(), WriteFault>, bool) {
    let mut writer = ComparingWriter::new(front);
    writer.fails = true;
    let answer = write(image, &mut writer);
    (answer, writer.is_whole())
}

// Within the header, at its end, and within the gap after the content.
#[test]
fn a_failed_write_reports_what_is_written(rt: HostRuntime) -> Result<(), Fault> {
    let file = one_section(Order::Little);
    let image = parse(rt.alloc(), &file)?;
    for count in [0, 7, 64, 70, 455] {
        let written = count as u64;
        let failed = failed_after(&image, &file[..count]);
        assert_same(&rt, failed, (Err(WriteFault { written }), true));
    }
    Ok(())
}
