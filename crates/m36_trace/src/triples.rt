//! Three octal digits by one table look-up.

ghost use Rattle.std.specs.Prelude.{◌≡◌, ◌+◌, ◌≤◌, ◌<◌, ◌++◌, length, take};
ghost use Rattle.m36_text.specs.Digits.{octal_text, word_text, half_text};
ghost use Rattle.m36_trace.specs.Spaced.{with_space, all_triples};

use m36_outside::spelled::put_at;
use m36_word::Word;

/// Three digits and a space.
type Triple = [u8; 4];

/// The numbers below 512, each in three digits and a space.
static TRIPLES: [Triple; 512] = [
    *b"000 ", *b"001 ", *b"002 ", *b"003 ", *b"004 ", *b"005 ", *b"006 ", *b"007 ", *b"010 ",
    *b"011 ", *b"012 ", *b"013 ", *b"014 ", *b"015 ", *b"016 ", *b"017 ", *b"020 ", *b"021 ",
    *b"022 ", *b"023 ", *b"024 ", *b"025 ", *b"026 ", *b"027 ", *b"030 ", *b"031 ", *b"032 ",
    *b"033 ", *b"034 ", *b"035 ", *b"036 ", *b"037 ", *b"040 ", *b"041 ", *b"042 ", *b"043 ",
    *b"044 ", *b"045 ", *b"046 ", *b"047 ", *b"050 ", *b"051 ", *b"052 ", *b"053 ", *b"054 ",
    *b"055 ", *b"056 ", *b"057 ", *b"060 ", *b"061 ", *b"062 ", *b"063 ", *b"064 ", *b"065 ",
    *b"066 ", *b"067 ", *b"070 ", *b"071 ", *b"072 ", *b"073 ", *b"074 ", *b"075 ", *b"076 ",
    *b"077 ", *b"100 ", *b"101 ", *b"102 ", *b"103 ", *b"104 ", *b"105 ", *b"106 ", *b"107 ",
    *b"110 ", *b"111 ", *b"112 ", *b"113 ", *b"114 ", *b"115 ", *b"116 ", *b"117 ", *b"120 ",
    *b"121 ", *b"122 ", *b"123 ", *b"124 ", *b"125 ", *b"126 ", *b"127 ", *b"130 ", *b"131 ",
    *b"132 ", *b"133 ", *b"134 ", *b"135 ", *b"136 ", *b"137 ", *b"140 ", *b"141 ", *b"142 ",
    *b"143 ", *b"144 ", *b"145 ", *b"146 ", *b"147 ", *b"150 ", *b"151 ", *b"152 ", *b"153 ",
    *b"154 ", *b"155 ", *b"156 ", *b"157 ", *b"160 ", *b"161 ", *b"162 ", *b"163 ", *b"164 ",
    *b"165 ", *b"166 ", *b"167 ", *b"170 ", *b"171 ", *b"172 ", *b"173 ", *b"174 ", *b"175 ",
    *b"176 ", *b"177 ", *b"200 ", *b"201 ", *b"202 ", *b"203 ", *b"204 ", *b"205 ", *b"206 ",
    *b"207 ", *b"210 ", *b"211 ", *b"212 ", *b"213 ", *b"214 ", *b"215 ", *b"216 ", *b"217 ",
    *b"220 ", *b"221 ", *b"222 ", *b"223 ", *b"224 ", *b"225 ", *b"226 ", *b"227 ", *b"230 ",
    *b"231 ", *b"232 ", *b"233 ", *b"234 ", *b"235 ", *b"236 ", *b"237 ", *b"240 ", *b"241 ",
    *b"242 ", *b"243 ", *b"244 ", *b"245 ", *b"246 ", *b"247 ", *b"250 ", *b"251 ", *b"252 ",
    *b"253 ", *b"254 ", *b"255 ", *b"256 ", *b"257 ", *b"260 ", *b"261 ", *b"262 ", *b"263 ",
    *b"264 ", *b"265 ", *b"266 ", *b"267 ", *b"270 ", *b"271 ", *b"272 ", *b"273 ", *b"274 ",
    *b"275 ", *b"276 ", *b"277 ", *b"300 ", *b"301 ", *b"302 ", *b"303 ", *b"304 ", *b"305 ",
    *b"306 ", *b"307 ", *b"310 ", *b"311 ", *b"312 ", *b"313 ", *b"314 ", *b"315 ", *b"316 ",
    *b"317 ", *b"320 ", *b"321 ", *b"322 ", *b"323 ", *b"324 ", *b"325 ", *b"326 ", *b"327 ",
    *b"330 ", *b"331 ", *b"332 ", *b"333 ", *b"334 ", *b"335 ", *b"336 ", *b"337 ", *b"340 ",
    *b"341 ", *b"342 ", *b"343 ", *b"344 ", *b"345 ", *b"346 ", *b"347 ", *b"350 ", *b"351 ",
    *b"352 ", *b"353 ", *b"354 ", *b"355 ", *b"356 ", *b"357 ", *b"360 ", *b"361 ", *b"362 ",
    *b"363 ", *b"364 ", *b"365 ", *b"366 ", *b"367 ", *b"370 ", *b"371 ", *b"372 ", *b"373 ",
    *b"374 ", *b"375 ", *b"376 ", *b"377 ", *b"400 ", *b"401 ", *b"402 ", *b"403 ", *b"404 ",
    *b"405 ", *b"406 ", *b"407 ", *b"410 ", *b"411 ", *b"412 ", *b"413 ", *b"414 ", *b"415 ",
    *b"416 ", *b"417 ", *b"420 ", *b"421 ", *b"422 ", *b"423 ", *b"424 ", *b"425 ", *b"426 ",
    *b"427 ", *b"430 ", *b"431 ", *b"432 ", *b"433 ", *b"434 ", *b"435 ", *b"436 ", *b"437 ",
    *b"440 ", *b"441 ", *b"442 ", *b"443 ", *b"444 ", *b"445 ", *b"446 ", *b"447 ", *b"450 ",
    *b"451 ", *b"452 ", *b"453 ", *b"454 ", *b"455 ", *b"456 ", *b"457 ", *b"460 ", *b"461 ",
    *b"462 ", *b"463 ", *b"464 ", *b"465 ", *b"466 ", *b"467 ", *b"470 ", *b"471 ", *b"472 ",
    *b"473 ", *b"474 ", *b"475 ", *b"476 ", *b"477 ", *b"500 ", *b"501 ", *b"502 ", *b"503 ",
    *b"504 ", *b"505 ", *b"506 ", *b"507 ", *b"510 ", *b"511 ", *b"512 ", *b"513 ", *b"514 ",
    *b"515 ", *b"516 ", *b"517 ", *b"520 ", *b"521 ", *b"522 ", *b"523 ", *b"524 ", *b"525 ",
    *b"526 ", *b"527 ", *b"530 ", *b"531 ", *b"532 ", *b"533 ", *b"534 ", *b"535 ", *b"536 ",
    *b"537 ", *b"540 ", *b"541 ", *b"542 ", *b"543 ", *b"544 ", *b"545 ", *b"546 ", *b"547 ",
    *b"550 ", *b"551 ", *b"552 ", *b"553 ", *b"554 ", *b"555 ", *b"556 ", *b"557 ", *b"560 ",
    *b"561 ", *b"562 ", *b"563 ", *b"564 ", *b"565 ", *b"566 ", *b"567 ", *b"570 ", *b"571 ",
    *b"572 ", *b"573 ", *b"574 ", *b"575 ", *b"576 ", *b"577 ", *b"600 ", *b"601 ", *b"602 ",
    *b"603 ", *b"604 ", *b"605 ", *b"606 ", *b"607 ", *b"610 ", *b"611 ", *b"612 ", *b"613 ",
    *b"614 ", *b"615 ", *b"616 ", *b"617 ", *b"620 ", *b"621 ", *b"622 ", *b"623 ", *b"624 ",
    *b"625 ", *b"626 ", *b"627 ", *b"630 ", *b"631 ", *b"632 ", *b"633 ", *b"634 ", *b"635 ",
    *b"636 ", *b"637 ", *b"640 ", *b"641 ", *b"642 ", *b"643 ", *b"644 ", *b"645 ", *b"646 ",
    *b"647 ", *b"650 ", *b"651 ", *b"652 ", *b"653 ", *b"654 ", *b"655 ", *b"656 ", *b"657 ",
    *b"660 ", *b"661 ", *b"662 ", *b"663 ", *b"664 ", *b"665 ", *b"666 ", *b"667 ", *b"670 ",
    *b"671 ", *b"672 ", *b"673 ", *b"674 ", *b"675 ", *b"676 ", *b"677 ", *b"700 ", *b"701 ",
    *b"702 ", *b"703 ", *b"704 ", *b"705 ", *b"706 ", *b"707 ", *b"710 ", *b"711 ", *b"712 ",
    *b"713 ", *b"714 ", *b"715 ", *b"716 ", *b"717 ", *b"720 ", *b"721 ", *b"722 ", *b"723 ",
    *b"724 ", *b"725 ", *b"726 ", *b"727 ", *b"730 ", *b"731 ", *b"732 ", *b"733 ", *b"734 ",
    *b"735 ", *b"736 ", *b"737 ", *b"740 ", *b"741 ", *b"742 ", *b"743 ", *b"744 ", *b"745 ",
    *b"746 ", *b"747 ", *b"750 ", *b"751 ", *b"752 ", *b"753 ", *b"754 ", *b"755 ", *b"756 ",
    *b"757 ", *b"760 ", *b"761 ", *b"762 ", *b"763 ", *b"764 ", *b"765 ", *b"766 ", *b"767 ",
    *b"770 ", *b"771 ", *b"772 ", *b"773 ", *b"774 ", *b"775 ", *b"776 ", *b"777 ",
];

// The table, of which the contract says that it has each number below 512 in order.
fn triples() -> &'static [Triple; 512]
    ensures { result.now ≡ all_triples }
{
    &TRIPLES
}

/// A number of nine bits, in three digits and a space.
#[inline(always)]
#[tactic(auto, using(crate::proofs::ByThrees::triple_of))]
fn triple(v: u64) -> &'static Triple
    requires { v < 512 }
    ensures { result.now ≡ with_space (octal_text 3 v) }
{
    &triples()[v as usize]
}

/// Writes the last three octal digits of a number at an index, and a space after them.
#[inline(always)]
fn put_triple(into: &mut [u8], place: usize, v: u64)
    requires { place + 4 ≤ length into.old }
    ensures digits { take (place + 3) into.new ≡ take place into.old ++ octal_text 3 v }
    ensures space { take (place + 4) into.new ≡ take place into.old ++ with_space (octal_text 3 v) }
{
    put_at(into, place, triple(v % 512));
}

/// Writes a word in twelve digits at an index, and a space after them. Returns the index after the
/// space.
#[inline(always)]
pub fn put_word(into: &mut [u8], place: usize, word: Word) -> usize
    requires { place + 13 ≤ length into.old }
    ensures end { result ≡ place + 13 }
    ensures text { take result into.new ≡ take place into.old ++ with_space (word_text word) }
{
    let v = word.value();
    put_triple(into, place, v >> 27);
    put_triple(into, place + 3, v >> 18);
    put_triple(into, place + 6, v >> 9);
    put_triple(into, place + 9, v);
    place + 13
}

/// Writes a number of 18 bits in six digits at an index, and a space after them. Returns the index
/// after the space.
#[inline(always)]
pub fn put_half(into: &mut [u8], place: usize, half: u32) -> usize
    requires { place + 7 ≤ length into.old }
    ensures end { result ≡ place + 7 }
    ensures text { take result into.new ≡ take place into.old ++ with_space (half_text half) }
{
    let v = half as u64;
    put_triple(into, place, v >> 9);
    put_triple(into, place + 3, v);
    place + 7
}
