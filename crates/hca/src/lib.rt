// The C interface: numbers and slices only, no `requires`.
#![tactic(auto)]

ghost use Rattle.std.specs.Prelude.{◌≡◌};
ghost use Rattle.crc.specs.Check.{checksum};
ghost use Rattle.rules.specs.Stage.{stage_lent};
ghost use Rattle.rules.specs.Reader.{reader_lent};
ghost use Rattle.rules_line.specs.Line.{line_lent};
ghost use Rattle.hca_encode.specs.EncodeFrame.{c_stage_left, c_encode_frame};
ghost use Rattle.hca_encode.specs.EncodeStereoFrame.{c_stereo_left, c_encode_stereo_frame};
ghost use Rattle.hca_encode.specs.EncodeLine.{c_line_left, c_encode_line, c_encode_stereo_line};
ghost use Rattle.hca_records.specs.ReadFrame.{c_reader_left, c_read_frame};
ghost use Rattle.hca_records.specs.WriteRecord.{c_writer_left, c_write_record};
ghost use Rattle.hca_files.specs.WriteHeader.{c_header_left, c_write_header};
ghost use Rattle.hca_files.specs.ReadHeader.{c_header_read_left, c_read_header};
ghost use Rattle.hca_files.specs.ReadWav.{c_wav_left, c_read_wav};
ghost use Rattle.hca_files.specs.Lists.{c_list_left, c_write_list, c_entries_left, c_read_list, c_answer_left, c_list_entry, c_list_summary};
ghost use Rattle.hca.specs.Version.{version};

use hca_encode::frame::encode_frame;
use hca_encode::line::encode_line;
use hca_encode::stereo_frame::encode_stereo_frame;
use hca_encode::stereo_line::encode_stereo_line;
use hca_files::header::write_header;
use hca_files::header_reading::read_header;
use hca_files::lists::{list_lookup, list_read, list_summary, list_write};
use hca_files::wavs::read_wav;
use hca_records::read::read_frame;
use hca_records::write::write_record;

// The frame stage. answer: level, boundary, pairs, bits.
#[unsafe(no_mangle)]
pub extern "C" fn hca_encode_frame(
    layout: &[u32],
    kinds: &[u8],
    spectra: &[f32],
    intensities: &[u8],
    scaled: &mut [f32],
    codes: &mut [i32],
    factors: &mut [u8],
    side: &mut [u8],
    frame: &mut [u8],
    answer: &mut [u32],
) -> u32
    ensures { c_stage_left result answer.new scaled.new codes.new factors.new side.new
        frame.new ≡ c_encode_frame layout.now kinds.now
        (stage_lent spectra.now intensities.now scaled.old codes.old factors.old
        side.old frame.old) answer.old }
{
    encode_frame(
        layout,
        kinds,
        spectra,
        intensities,
        scaled,
        codes,
        factors,
        side,
        frame,
        answer,
    )
}

// The stereo stage. answer: level, boundary, pairs, bits.
#[unsafe(no_mangle)]
pub extern "C" fn hca_encode_stereo_frame(
    layout: &[u32],
    kinds: &[u8],
    spectra: &mut [f32],
    intensities: &mut [u8],
    scaled: &mut [f32],
    codes: &mut [i32],
    factors: &mut [u8],
    side: &mut [u8],
    frame: &mut [u8],
    answer: &mut [u32],
) -> u32
    ensures { c_stereo_left result answer.new spectra.new intensities.new scaled.new codes.new
        factors.new side.new frame.new
        ≡ c_encode_stereo_frame layout.now kinds.now
        (stage_lent spectra.old intensities.old scaled.old codes.old factors.old
        side.old frame.old) answer.old }
{
    encode_stereo_frame(
        layout,
        kinds,
        spectra,
        intensities,
        scaled,
        codes,
        factors,
        side,
        frame,
        answer,
    )
}

// A line of frames of one layout. tally: frames, bits, pairs; answer: at a refusal the number beside it and, from 3 on, the frame's index.
#[unsafe(no_mangle)]
pub extern "C" fn hca_encode_line(
    layout: &[u32],
    kinds: &[u8],
    count: usize,
    spectra: &[f32],
    intensities: &[u8],
    scaled: &mut [f32],
    codes: &mut [i32],
    factors: &mut [u8],
    side: &mut [u8],
    frames: &mut [u8],
    answers: &mut [u32],
    tally: &mut [u64],
    answer: &mut [u32],
) -> u32
    ensures { c_line_left result answer.new spectra.now intensities.now scaled.new codes.new
        factors.new side.new frames.new answers.new tally.new
        ≡ c_encode_line layout.now kinds.now count
        (line_lent spectra.now intensities.now scaled.old codes.old factors.old
        side.old frames.old answers.old) tally.old answer.old }
{
    encode_line(
        layout,
        kinds,
        count,
        spectra,
        intensities,
        scaled,
        codes,
        factors,
        side,
        frames,
        answers,
        tally,
        answer,
    )
}

// A line from unmixed spectra, left as mixed. tally: frames, bits, pairs; answer: at a refusal the number beside it and, from 3 on, the frame's index.
#[unsafe(no_mangle)]
pub extern "C" fn hca_encode_stereo_line(
    layout: &[u32],
    kinds: &[u8],
    count: usize,
    spectra: &mut [f32],
    intensities: &mut [u8],
    scaled: &mut [f32],
    codes: &mut [i32],
    factors: &mut [u8],
    side: &mut [u8],
    frames: &mut [u8],
    answers: &mut [u32],
    tally: &mut [u64],
    answer: &mut [u32],
) -> u32
    ensures { c_line_left result answer.new spectra.new intensities.new scaled.new codes.new
        factors.new side.new frames.new answers.new tally.new
        ≡ c_encode_stereo_line layout.now kinds.now count
        (line_lent spectra.old intensities.old scaled.old codes.old factors.old
        side.old frames.old answers.old) tally.old answer.old }
{
    encode_stereo_line(
        layout,
        kinds,
        count,
        spectra,
        intensities,
        scaled,
        codes,
        factors,
        side,
        frames,
        answers,
        tally,
        answer,
    )
}

// The record writer. record: level, boundary; answer: level, boundary, bits.
#[unsafe(no_mangle)]
pub extern "C" fn hca_write_record(
    layout: &[u32],
    kinds: &[u8],
    record: &[u32],
    factors: &[u8],
    side: &[u8],
    codes: &[i32],
    frame: &mut [u8],
    answer: &mut [u32],
) -> u32
    ensures { c_writer_left result answer.new frame.new
        ≡ c_write_record layout.now kinds.now «record».now factors.now side.now codes.now
        frame.old answer.old }
{
    write_record(layout, kinds, record, factors, side, codes, frame, answer)
}

// The strict reader. answer: level, boundary, bits.
#[unsafe(no_mangle)]
pub extern "C" fn hca_read_frame(
    layout: &[u32],
    kinds: &[u8],
    frame: &[u8],
    factors: &mut [u8],
    side: &mut [u8],
    codes: &mut [i32],
    answer: &mut [u32],
) -> u32
    ensures { c_reader_left result answer.new factors.new side.new codes.new
        ≡ c_read_frame layout.now kinds.now
        (reader_lent frame.now factors.old side.old codes.old) answer.old }
{
    read_frame(layout, kinds, frame, factors, side, codes, answer)
}

// The file header. stream: rate, count, padding; points: none, or start and end.
#[unsafe(no_mangle)]
pub extern "C" fn hca_write_header(
    layout: &[u32],
    kinds: &[u8],
    stream: &[u64],
    points: &[u64],
    header: &mut [u8],
) -> u32
    ensures { c_header_left result header.new ≡ c_write_header layout.now kinds.now stream.now
        points.now header.old }
{
    write_header(layout, kinds, stream, points, header)
}

// The file header back. layout: seven numbers; answer: rate, count, padding, loop or none, frame, delay, end frame, padding of the loop.
#[unsafe(no_mangle)]
pub extern "C" fn hca_read_header(header: &[u8], layout: &mut [u32], answer: &mut [u32]) -> u32
    ensures { c_header_read_left result layout.new answer.new
        ≡ c_read_header header.now layout.old answer.old }
{
    read_header(header, layout, answer)
}

// The WAV reader. note: peak, mean; answer: channels, rate, depth, count.
#[unsafe(no_mangle)]
pub extern "C" fn hca_read_wav(
    wav: &[u8],
    samples: &mut [f32],
    note: &mut [f32],
    answer: &mut [u32],
) -> u32
    ensures { c_wav_left result samples.new note.new answer.new
        ≡ c_read_wav wav.now samples.old note.old answer.old }
{
    read_wav(wav, samples, note, answer)
}

// The writer of the list beside the bank.
#[unsafe(no_mangle)]
pub extern "C" fn hca_list_write(frames: u32, entries: &[u32], list: &mut [u8]) -> u32
    ensures { c_list_left result list.new ≡ c_write_list frames entries.now list.old }
{
    list_write(frames, entries, list)
}

// The list's reader. answer: frames.
#[unsafe(no_mangle)]
pub extern "C" fn hca_list_read(list: &[u8], entries: &mut [u32], answer: &mut [u32]) -> u32
    ensures { c_entries_left result entries.new answer.new
        ≡ c_read_list list.now entries.old answer.old }
{
    list_read(list, entries, answer)
}

// The list's lookup by frame number. answer: level, boundary, pairs, bits.
#[unsafe(no_mangle)]
pub extern "C" fn hca_list_lookup(list: &[u8], frame: u32, answer: &mut [u32]) -> u32
    ensures { c_answer_left result answer.new ≡ c_list_entry list.now frame answer.old }
{
    list_lookup(list, frame, answer)
}

// The list's summary. answer: highest level, most pairs, total of bits.
#[unsafe(no_mangle)]
pub extern "C" fn hca_list_summary(list: &[u8], answer: &mut [u64]) -> u32
    ensures { c_answer_left result answer.new ≡ c_list_summary list.now answer.old }
{
    list_summary(list, answer)
}

// The check of a frame's bytes.
#[unsafe(no_mangle)]
pub extern "C" fn hca_checksum(bytes: &[u8]) -> u16
    ensures { result ≡ checksum bytes.now }
{
    sealing::crc16_checksum(bytes)
}

// The library's version: 10,000 x major + 100 x minor + patch.
#[unsafe(no_mangle)]
pub extern "C" fn hca_version() -> u32
    ensures { result ≡ version }
{
    200
}
