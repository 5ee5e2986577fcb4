// "in the converter a fault by 01's image checks or a 255-byte row is 13, then a short buffer 12"
ghost use Rattle.rules.specs.Outcomes.{wrote};
ghost use Rattle.converts.specs.Promise.{ImageConverted};

use crate::judge::old_image;
use crate::rows::put_converted;
use rules::Refusal;

// Each default grows by the one byte of its row's count, and the image by the 8 bytes of its floor.
pub fn convert_image(image: &[u8], out: &mut [u8]) -> Result<usize, Refusal>
    ensures { ImageConverted image.now out.old (wrote result) out.new }
{
    let Some(defaults) = old_image(image) else {
        return Err(Refusal::BadImage);
    };
    let size = image.len() + 8;
    if out.len() < size || out.len() - size < defaults {
        return Err(Refusal::ShortBuffer);
    }
    Ok(put_converted(out, image, defaults))
}
