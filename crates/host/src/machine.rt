// The stand-in's functions for a host in C: the image and a line.
ghost use Rattle.std.specs.Prelude.{◌≡◌};
ghost use Rattle.instrument.specs.declared.settings.Series.TheVariants.{Tps100, Tps300};
ghost use Rattle.state.specs.Image.{image_n};
ghost use Rattle.host.specs.Machine.{line_tells, told_line, LaysFactory, CallsC};

use crate::answers::pack;
use instrument::settings::Series;
use lines::machine::{Told, line};
use lines::verdicts::{Refused, verdict_byte, verdict_number, verdict_which};
use state::image::{IMAGE_100, IMAGE_300, image_size};
use state::laying::put_factory;

// Gives what a line tells, each part in its own bits: the bytes of its reply, and for 26 which rule the word breaks and the byte of the line.
fn line_tells(told: Told) -> u64
    ensures { result ≡ line_tells told }
{
    let count = told.count as u64 % 65536;
    let which = verdict_which(told.verdict) % 256;
    let byte = verdict_byte(told.verdict) as u64 % 256;
    count + which * 65536 + byte * 16777216
}

// Gives the answer of a line.
pub fn told_line(told: Told) -> u64
    ensures { result ≡ told_line told }
{
    verdict_number(told.verdict) * 4294967296 + line_tells(told)
}

// Tells the length of a TPS100's image.
#[tactic(auto, using(state::proofs::Images::image_100))]
#[unsafe(no_mangle)]
pub extern "C" fn gsi_image_size() -> u64
    ensures { result ≡ image_n Tps100 }
{
    IMAGE_100 as u64
}

// Tells the length of a TPS300's image.
#[tactic(auto, using(state::proofs::Images::image_300))]
#[unsafe(no_mangle)]
pub extern "C" fn gsi_image_size_300() -> u64
    ensures { result ≡ image_n Tps300 }
{
    IMAGE_300 as u64
}

// Lays the series' factory state down in exactly its image's length; otherwise it answers 31 and touches nothing.
fn lay_factory(series: Series, image: &mut [u8]) -> u64
    ensures { LaysFactory series image.old result image.new }
{
    if image.len() != image_size(series) {
        return pack(verdict_number(Err(Refused::NoState)), 0);
    }
    put_factory(series, image);
    0
}

// Lays the factory state of a TPS100 down.
#[unsafe(no_mangle)]
pub extern "C" fn gsi_factory(image: &mut [u8]) -> u64
    ensures { LaysFactory Tps100 image.old result image.new }
{
    lay_factory(Series::Tps100, image)
}

// Lays the factory state of a TPS300 down.
#[unsafe(no_mangle)]
pub extern "C" fn gsi_factory_300(image: &mut [u8]) -> u64
    ensures { LaysFactory Tps300 image.old result image.new }
{
    lay_factory(Series::Tps300, image)
}

// Runs one line on the image and writes its reply.
#[unsafe(no_mangle)]
pub extern "C" fn gsi_line(image: &mut [u8], text: &[u8], reply: &mut [u8]) -> u64
    ensures { CallsC image.old text.now reply.old result image.new reply.new }
{
    told_line(line(image, text, reply))
}
