// A trixel with its first ray, as the cutting lends it to the next level.
ghost use Rattle.std.specs.Prelude.{◌≡◌};
ghost use Rattle.mesh_trixels.specs.Corners.{SmallTrixel};
ghost use Rattle.classify.specs.Shape.{ray0};

use mesh::Trixel;
use vector::Vec3;

// A trixel, and its first ray.
#[derive(Clone, Copy)]
pub struct StoredTrixel {
    pub trixel: Trixel,
    pub ray: Vec3,
    ghost small: { SmallTrixel trixel },
    ghost first: { ray ≡ ray0 trixel },
}
