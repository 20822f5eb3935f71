// The forms of a triangle, together.
ghost use Rattle.forms.specs.Form.{BoundedForms};

use crate::{Edge, PlaneForm};

// A triangle's edges and its plane, small enough to compute with.
#[derive(Clone, Copy)]
pub struct Forms {
    pub edges: [Edge; 3],
    pub plane: PlaneForm,
    pub ghost bounded: { BoundedForms edges plane },
}
