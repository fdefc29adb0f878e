// The laws of the format: each is proved where it is named.
ghost use Rattle.format.specs.Layout.{FieldsStand};
ghost use Rattle.format.specs.Theorems.{ImageDecodesBack, AlikeHaveOneImage, ImageTellsTheTree};

pub fn images_tell_their_trees()
    ensures back { ImageDecodesBack }
    ensures one { AlikeHaveOneImage }
    ensures tells { ImageTellsTheTree }
{}

pub fn fields_stand_in_their_places()
    ensures { FieldsStand }
{}
