// Laws of the texts of pictures.

ghost use Rattle.heap_image.specs.Told.{PicturesAreRead, SoundIsFaultless, SomePictureIsSound};

/// The text of a picture, read again, says exactly what the picture has.
pub fn pictures_are_read()
    ensures { PicturesAreRead }
{}

/// The verifier finds no fault in the text of a sound picture unless it is too long; and it counts its objects.
pub fn sound_is_faultless()
    ensures { SoundIsFaultless }
{}

/// There is a sound picture with objects and remembered fields.
pub fn some_picture_is_sound()
    ensures { SomePictureIsSound }
{}
