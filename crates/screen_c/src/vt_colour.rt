ghost use Rattle.std.specs.Prelude.{◌≡◌};
ghost use Rattle.screen_c.specs.Shown.{c_colour};

/// `struct vt_colour`.
#[repr(C)]
#[derive(Clone, Copy, Debug, Drop, PartialEq)]
pub struct VtColour {
    pub red: u8,
    pub green: u8,
    pub blue: u8,
    /// 0.
    pub spare: u8,
}

impl VtColour {
    pub(crate) fn of(rgb: (u8, u8, u8)) -> VtColour
        ensures { result ≡ c_colour rgb }
    {
        VtColour {
            red: rgb.0,
            green: rgb.1,
            blue: rgb.2,
            spare: 0,
        }
    }
}
