//! A set in pieces, by a handle.
ghost use Rattle.std.specs.Prelude.{◌≡◌, None};
ghost use Rattle.usb_c.specs.Answers.{AnswersOn};
ghost use Rattle.usb_c.specs.Decoders.{Feeds, Lists, OpensNew, report};

use crate::answer::{Answer, Verdict, refused_set};
use crate::decoder_handle::NzgDecoder;
use crate::text::fill_set;
use std::alloc::Global;
use std::mem::replace;
use usb_set::{Decoder, Progress, SetFault};

/// Opens a decoder that has taken no byte. One that is held already is freed.
#[unsafe(no_mangle)]
pub extern "C" fn nzg_decoder_open(alloc: Global, decoder: &mut NzgDecoder) -> Answer
    ensures { AnswersOn (OpensNew decoder.new.held) result }
{
    match Box::new(alloc, Decoder::new(alloc)) {
        Ok(held) => {
            *decoder = NzgDecoder::of(held);
            Verdict::Done(0).answer()
        }
        Err(_) => {
            *decoder = NzgDecoder::empty(alloc);
            Verdict::NoMemory.answer()
        }
    }
}

/// Frees the decoder, if one is held.
#[unsafe(no_mangle)]
pub extern "C" fn nzg_decoder_close(alloc: Global, decoder: &mut NzgDecoder)
    ensures { decoder.new.held ≡ None }
{
    let _old = replace(decoder, NzgDecoder::empty(alloc));
}

/// Feeds the next piece.
#[unsafe(no_mangle)]
pub extern "C" fn nzg_decoder_feed(alloc: Global, decoder: &mut NzgDecoder, piece: &[u8]) -> Answer
    ensures { AnswersOn (Feeds decoder.old.held piece.now decoder.new.held) result }
{
    feed(alloc, decoder, piece).answer()
}

fn feed(alloc: Global, decoder: &mut NzgDecoder, piece: &[u8]) -> Verdict
    ensures { Feeds decoder.old.held piece.now decoder.new.held result }
{
    let Some(mut held) = replace(decoder, NzgDecoder::empty(alloc)).into_box() else {
        return Verdict::Closed;
    };
    let fed = held.feed(piece);
    *decoder = NzgDecoder::of(held);
    tell(piece, fed)
}

fn tell(piece: &[u8], fed: Result<Progress, SetFault>) -> Verdict
    ensures { result ≡ report piece.now fed }
{
    match fed {
        Ok(Progress::Done { used }) => Verdict::Done(used),
        Ok(Progress::More) => Verdict::Open(piece.len()),
        Err(fault) => refused_set(fault),
    }
}

/// Puts the listing of the set into the buffer, and frees the decoder.
#[unsafe(no_mangle)]
pub extern "C" fn nzg_decoder_list(
    alloc: Global,
    decoder: &mut NzgDecoder,
    text: &mut [u8],
) -> Answer
    ensures held { decoder.new.held ≡ None }
    ensures answer { AnswersOn (Lists decoder.old.held text.old text.new) result }
{
    list(alloc, decoder, text).answer()
}

fn list(alloc: Global, decoder: &mut NzgDecoder, out: &mut [u8]) -> Verdict
    ensures held { decoder.new.held ≡ None }
    ensures report { Lists decoder.old.held out.old out.new result }
{
    let Some(held) = replace(decoder, NzgDecoder::empty(alloc)).into_box() else {
        return Verdict::Closed;
    };
    match Box::into_inner(held).finish() {
        Ok(set) => fill_set(alloc, &set, out),
        Err(fault) => refused_set(fault),
    }
}
