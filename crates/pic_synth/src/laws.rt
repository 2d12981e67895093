//! Laws over the definitions alone.

ghost use Rattle.pic_synth.specs.Pictures.{SyntheticIsMeant};

use pic_raw::written_is_meant;

/// The raw planar bytes of these pictures mean exactly these pictures.
pub fn synthetic_is_meant()
    ensures { SyntheticIsMeant }
{
    written_is_meant();
}
