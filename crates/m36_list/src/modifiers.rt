//! The text of the tag of an instruction.

ghost use Rattle.std.specs.Prelude.{◌≡◌, ◌<◌, ◌≤◌, ◌^◌, length, option_map, IfSome};
ghost use Rattle.m36_list.specs.Modifiers.{modifier_text};

/// The text of a tag after the address: a comma and the modifier, or nothing for tag 0. None
/// exactly if the tag is an IT tag that has no text.
#[tactic(auto, unfolding(crate::specs::Modifiers::modifier_text))]
pub fn modifier_text(tag: u8) -> Option<&'static str>
    requires { tag < 2 ^ 6 }
    ensures text { option_map (λ s. s.now) result ≡ modifier_text tag }
    ensures len { IfSome result (λ s. length s.now ≤ 4) }
{
    match tag {
        0o00 => Some(""),
        0o01 => Some(",au"),
        0o02 => Some(",qu"),
        0o03 => Some(",du"),
        0o04 => Some(",ic"),
        0o05 => Some(",al"),
        0o06 => Some(",ql"),
        0o07 => Some(",dl"),
        0o10 => Some(",x0"),
        0o11 => Some(",x1"),
        0o12 => Some(",x2"),
        0o13 => Some(",x3"),
        0o14 => Some(",x4"),
        0o15 => Some(",x5"),
        0o16 => Some(",x6"),
        0o17 => Some(",x7"),
        0o20 => Some(",*"),
        0o21 => Some(",au*"),
        0o22 => Some(",qu*"),
        0o23 => Some(",du*"),
        0o24 => Some(",ic*"),
        0o25 => Some(",al*"),
        0o26 => Some(",ql*"),
        0o27 => Some(",dl*"),
        0o30 => Some(",x0*"),
        0o31 => Some(",x1*"),
        0o32 => Some(",x2*"),
        0o33 => Some(",x3*"),
        0o34 => Some(",x4*"),
        0o35 => Some(",x5*"),
        0o36 => Some(",x6*"),
        0o37 => Some(",x7*"),
        0o44 => Some(",sd"),
        0o51 => Some(",i"),
        0o53 => Some(",ad"),
        0o54 => Some(",di"),
        0o56 => Some(",id"),
        0o60 => Some(",*n"),
        0o61 => Some(",*au"),
        0o62 => Some(",*qu"),
        0o63 => Some(",*du"),
        0o64 => Some(",*ic"),
        0o65 => Some(",*al"),
        0o66 => Some(",*ql"),
        0o67 => Some(",*dl"),
        0o70 => Some(",*x0"),
        0o71 => Some(",*x1"),
        0o72 => Some(",*x2"),
        0o73 => Some(",*x3"),
        0o74 => Some(",*x4"),
        0o75 => Some(",*x5"),
        0o76 => Some(",*x6"),
        0o77 => Some(",*x7"),
        _ => None,
    }
}
