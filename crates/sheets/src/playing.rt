// The work of the program sheet: an input cut into lines, each played from the factory state, and the sheet of what comes of it.
ghost use Rattle.sheets.specs.Playing.{Prints};
ghost use Rattle.sheets.specs.Keeping.{Runs};

use crate::forms::Form;
use crate::writing::write;
use instrument::settings::Series;
use lines::machine::line;
use pieces::cut;
use state::image::IMAGE_100;
use state::laying::put_factory;

// The most bytes that an input may have.
pub const MOST: usize = 65_536;

// Runs each piece of the input on the image, with 306 bytes of room for its reply.
fn run(input: &[u8], image: &mut [u8])
    ensures { Runs input.now image.old image.new }
{
    let mut at = 0;
    while at < input.len() {
        let rest = &input[at..];
        let n = cut(rest);
        let mut reply = [0; 306];
        line(image, &rest[0..n], &mut reply);
        at += n;
    }
}

// Writes what the program prints for the input into the room, and answers its length; 0 and nothing written where the room is too short.
pub fn play(input: &[u8], room: &mut [u8]) -> usize
    ensures { Prints input.now room.old result room.new }
{
    if MOST < input.len() {
        if room.len() < 14 {
            return 0;
        }
        figures::lay(b"refused=input\n", room);
        return 14;
    }
    let mut image = [0; IMAGE_100];
    put_factory(Series::Tps100, &mut image);
    run(input, &mut image);
    write(Form::One, &image, room).unwrap_or(0)
}
