//! Laws over the definitions. They are proved, and do nothing when they are called.

ghost use Rattle.std.specs.Prelude.{◌≡◌, ◌<◌, ◌≤◌, ◌++◌, ◌∷◌, [], ◌⊎◌, ℕ, List, Ok, true, length, All};
ghost use Rattle.std.specs.List.{list_any};
ghost use Rattle.carousel_cid.specs.declared.kind.Kind.TheVariants.{File, Descriptor};
ghost use Rattle.sender_plan.specs.declared.params.Params.{Params};
ghost use Rattle.sender_plan.specs.Catalog.{reading};
ghost use Rattle.sender_plan.specs.CatalogInstance.{CatalogInstance};
ghost use Rattle.sender_plan.specs.Content.{Content, same, identifier};
ghost use Rattle.sender_plan.specs.Installed.{shown_of, Carries};
ghost use Rattle.sender_plan.specs.PlanOf.{IsFit, IsPlanOf};
ghost use Rattle.sender_plan.specs.Session.{Session};

/// Contents that are the same have one identifier, and contents that differ have different ones: a file that is changed
/// in its location, its type or a byte gets another identifier, and one that isn't changed keeps its own.
pub fn identifiers_tell_contents_apart()
    ensures same { (all : List Content) (a b : Content) → same a b ≡ true → identifier all a ≡ identifier all b }
    ensures differ { (all : List Content) (a b : Content) → list_any (same a) all ≡ true → list_any (same b) all ≡ true
        → identifier all a ≡ identifier all b → same a b ≡ true }
{}

/// What a text of at most 16,777,216 bytes lists may be planned: its numbers have 32 bits, and the locations and types of
/// its files may stand in an object's fields.
pub fn what_is_listed_is_fit()
    ensures { (text : List ℕ) (instances : List CatalogInstance) → reading text ≡ Ok instances → length text ≤ 16777216 → All IsFit instances }
{}

/// The last instance of a catalog reads back from the objects of its session: its descriptor and its files are objects
/// that read as this descriptor and these files, and each other object that reads as a descriptor has a lower number.
pub fn last_instance_reads_back()
    ensures descriptor { (earlier : List CatalogInstance) (last : CatalogInstance) (bodies : List (List ℕ)) (params : Params) (s : Session)
        → IsPlanOf (earlier ++ last ∷ []) bodies params s
        → Carries s (shown_of (earlier ++ last ∷ []) bodies last).descriptor_toi (Descriptor last.number (shown_of (earlier ++ last ∷ []) bodies last).listed) }
    ensures files { (earlier : List CatalogInstance) (last : CatalogInstance) (bodies : List (List ℕ)) (params : Params) (s : Session)
        → IsPlanOf (earlier ++ last ∷ []) bodies params s
        → All (λ f. Carries s f.toi (File f.location f.kind f.body)) (shown_of (earlier ++ last ∷ []) bodies last).files }
    ensures others { (earlier : List CatalogInstance) (last : CatalogInstance) (bodies : List (List ℕ)) (params : Params) (s : Session)
        → IsPlanOf (earlier ++ last ∷ []) bodies params s
        → (toi number : ℕ) (listed : List ℕ) → Carries s toi (Descriptor number listed)
        → (number < last.number) ⊎ ((number ≡ last.number) × (toi ≡ (shown_of (earlier ++ last ∷ []) bodies last).descriptor_toi)) }
{}
