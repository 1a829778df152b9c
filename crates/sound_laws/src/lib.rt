//! No oversubscription: what the scheduler of one thread accepts and cancels keeps every state sound. Each law is the
//! contract of a public function that does nothing.
#![tactic(auto)]

ghost use Rattle.sound_laws.specs.SoundLaws.{AcceptingKeepsSound, CancellingKeepsSound, LegalIsSound};

/// An accepted job keeps the jobs sound.
pub fn accepting_keeps_sound()
    ensures { AcceptingKeepsSound }
{}

/// A cancel keeps them sound.
pub fn cancelling_keeps_sound()
    ensures { CancellingKeepsSound }
{}

/// After every entry of a legal history no vertex is oversubscribed.
pub fn legal_is_sound()
    ensures { LegalIsSound }
{}
