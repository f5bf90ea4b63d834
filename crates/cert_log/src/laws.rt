//! Laws: one certificate has one spelling; a right one splits at steps of its box, bounds each plan, has few nodes and a short text;
//! what a search handled and left are the boxes of all levels. The functions do nothing: their contracts are the laws.

ghost use Rattle.cert_log.specs.Events.{BoxesAreOfLevels};
ghost use Rattle.cert_log.specs.Good.{GoodSteps};
ghost use Rattle.cert_log.specs.ReadAgain.{OneCertificate, OneReading, OneRefusal, ReadIsText, RoundTrip, WrittenIsRead};
ghost use Rattle.cert_log.specs.Readings.{OneSpelling};
ghost use Rattle.cert_log.specs.Splits.{BoundsEachPlan, HaveShortTexts, IsNoLargerThanFull};

/// A text is that of one certificate alone, so what is written is read again as the same certificate.
pub fn one_spelling()
    ensures { OneSpelling }
{}

/// A text that stands for a certificate is refused for want of memory alone.
pub fn one_reading()
    ensures { OneReading }
{}

/// A text has one first refusal at the most, beside want of memory.
pub fn one_refusal()
    ensures { OneRefusal }
{}

/// The text of a certificate whose nodes are one whole tree stands for it.
pub fn written_is_read()
    ensures { WrittenIsRead }
{}

/// A text stands for one certificate.
pub fn one_certificate()
    ensures { OneCertificate }
{}

/// What is written of a certificate is read again as the same certificate.
pub fn round_trip()
    ensures { RoundTrip }
{}

/// A text that stands for a certificate is that certificate's, whose nodes are one whole tree.
pub fn read_is_text()
    ensures { ReadIsText }
{}

/// A certificate that is right for a box splits it at its own steps alone.
pub fn good_steps()
    ensures { GoodSteps }
{}

/// Each lawful plan loses at least the bound of a certificate that is right for the box of all plans, and there is none where it has no bound.
pub fn good_certificates_bound_each_plan()
    ensures { BoundsEachPlan }
{}

/// A certificate that is right for the box of all plans has no more nodes than a full tree of the frame's depth.
pub fn good_certificates_are_no_larger_than_full_trees()
    ensures { IsNoLargerThanFull }
{}

/// The text of a certificate that is right for the box of all plans has at most twelve bytes for each box that was closed or split, and 100.
pub fn good_certificates_have_short_texts()
    ensures { HaveShortTexts }
{}

/// What was handled and what is left are the boxes of all levels, each once.
pub fn boxes_are_of_levels()
    ensures { BoxesAreOfLevels }
{}
