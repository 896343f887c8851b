ghost use Rattle.stencil.specs.Sides.{OnSides, AcrossSides};

// One of a kind on each side of a cell.
#[derive(Clone, Copy)]
pub struct Sides<T> {
    pub north: T,
    pub west: T,
    pub east: T,
    pub south: T,
}

impl<T: Copy> Sides<T> {
    // What a closure makes of each side. For the crates above.
    pub fn map<U, F: Fn(T) -> U>(self, f: F) -> Sides<U>
        requires { OnSides (F.pre f) self }
        ensures { AcrossSides (F.post f) self result }
    {
        Sides {
            north: f(self.north),
            west: f(self.west),
            east: f(self.east),
            south: f(self.south),
        }
    }
}
